// Ends of raw HTML and of code spans that a text lacks.

use crate::missing_runs::MissingRuns;
use std::alloc::Global;

/// Ends of raw HTML and of code spans that were looked for in vain: for each, how many bytes at the end of the text hold none. There
/// it is not looked for again.
#[derive(Drop)]
pub struct MissingEnds {
    /// `-->`
    pub comment: usize,
    /// `?>`
    pub instruction: usize,
    /// `>`
    pub declaration: usize,
    /// `]]>`
    pub cdata: usize,
    /// Runs of backticks.
    pub backticks: MissingRuns,
}

impl MissingEnds {
    ghost use Rattle.std.specs.Prelude.{List, ℕ};
    ghost use Rattle.cm_spans.specs.Missing.{Lacks};

    /// Nothing has been looked for.
    pub fn new(alloc: Global) -> MissingEnds
        ensures { (t : List ℕ) → Lacks result t }
    {
        MissingEnds {
            comment: 0,
            instruction: 0,
            declaration: 0,
            cdata: 0,
            backticks: MissingRuns::new(alloc),
        }
    }
}
