// What an evaluation works with.
use liquid_parse::Templates;

/// What an evaluation works with: what makes excerpts, what makes HTML of Markdown, and the templates that were parsed so far.
#[derive(Drop)]
pub struct Tools<'c, X, C> {
    pub excerpts: X,
    pub convert: &'c C,
    pub templates: Templates,
}
