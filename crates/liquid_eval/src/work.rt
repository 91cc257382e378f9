// What is left of a tag once it was begun.
use crate::signal::Signal;
use filter_base::Writer;
use liquid_tags::{Elements, Grid, Included, Nodes};
use site_base::Text;

/// What is left of a tag once it was begun: nodes to enter, and what is done with what they leave.
#[derive(Drop)]
pub(crate) enum Work<'n> {
    /// Nothing. What follows the tag is evaluated, or not.
    Ended(Signal),
    /// The nodes of a part.
    Inside(Nodes<'n>),
    /// The turns of a `for`.
    Turns(Turns<'n>),
    /// The cells of a `tablerow`.
    Cells(Cells<'n>),
    /// Nodes whose text is kept apart.
    Apart(Apart<'n>),
    /// The text of an include.
    Included(Included),
}

/// A turn for each element, which has this name in the body.
#[derive(Drop)]
pub(crate) struct Turns<'n> {
    pub name: &'n Text,
    pub body: Nodes<'n>,
    pub elements: Elements,
}

/// A cell for each element, which has this name in the body.
#[derive(Drop)]
pub(crate) struct Cells<'n> {
    pub name: &'n Text,
    pub body: Nodes<'n>,
    pub grid: Grid,
}

/// Nodes whose text is kept apart, what becomes of it, and the text before it.
#[derive(Drop)]
pub(crate) struct Apart<'n> {
    pub body: Nodes<'n>,
    pub before: Writer,
    pub usage: Use<'n>,
}

/// What becomes of a text that was kept apart.
#[derive(Clone, Copy)]
pub(crate) enum Use<'n> {
    /// It is the value of this variable.
    Variable(&'n Text),
    /// It is code in this language.
    Code(&'n Text),
}
