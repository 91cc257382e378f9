// Runs of backticks that a text lacks.
ghost use Rattle.std.specs.Prelude.{◌≡◌, ◌<◌, ◌==◌, List, ℕ, cond, min, slice_index};
ghost use Rattle.std.specs.Bool.{OnTrue};
ghost use Rattle.cm_spans.specs.Missing.{LacksNext, LacksRuns};

use std::alloc::Global;

/// Ends of code spans that were looked for in vain: for each length, how many bytes at the end of the text hold no run of just
/// so many backticks behind one that they begin with. There it is not looked for again.
#[derive(Drop)]
pub struct MissingRuns {
    /// By length. Of longer runs nothing is known.
    pub known: Vec<usize>,
}

impl MissingRuns {
    /// Nothing has been looked for.
    pub fn new(alloc: Global) -> MissingRuns
        ensures { (t : List ℕ) → LacksRuns result.known.items t }
    {
        MissingRuns {
            known: Vec::new(alloc),
        }
    }

    /// Whether a text is known to have no run of just n backticks behind the one at its front.
    pub(crate) fn lacks(&self, n: usize, text: &str) -> bool
        requires some { 0 < n }
        requires lacks { LacksRuns self.now.known.items text.now }
        ensures { OnTrue result (LacksNext n text.now) }
    {
        n < self.known.len() && text.len() <= self.known[n]
    }

    /// Notes what a text lacks, once. A run that is longer than an eighth of the text is not noted: there are no more than eight of
    /// those. Where memory is wanting nothing is noted, and each run is looked for again.
    pub(crate) fn note(&mut self, text: &[u8])
        requires { LacksRuns self.old.known.items text.now }
        ensures { LacksRuns self.new.known.items text.now }
    {
        if self.known.len() > 0 {
            return;
        }
        match self.known.resize(text.len() / 8 + 1, text.len()) {
            Ok(()) => note_runs(text, &mut self.known),
            Err(_) => (),
        }
    }
}

// Notes of each run, from the last to the first, that no other of its length stands behind it.
fn note_runs(text: &[u8], known: &mut [usize])
    ensures { LacksRuns known.new text.now }
{
    let mut at = text.len();
    let mut run = 0;
    while at > 0 {
        if text[at - 1] == b'`' {
            run += 1;
        } else {
            note_run(known, run, text.len() - at);
            run = 0;
        }
        at -= 1;
    }
}

// Notes a run with so many bytes from its start to the end of the text, unless one behind it is as long.
fn note_run(known: &mut [usize], run: usize, len: usize)
    ensures { (n : ℕ) → slice_index known.new n ≡ cond (n == run) (min (slice_index known.old n) len) (slice_index known.old n) }
{
    if run < known.len() && len < known[run] {
        known[run] = len;
    }
}
