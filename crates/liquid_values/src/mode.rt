// What a text is that is evaluated.
use site_base::{Text, Value};

/// What a text is that is evaluated.
#[derive(Drop)]
pub enum Mode {
    /// The body of an item.
    Body,
    /// The front of an item's text.
    Excerpt,
    /// A layout around an item's text: the item's own converted text, the text so far, and the variables of the layouts.
    Layout {
        own: Text,
        content: Text,
        layout: Value,
    },
}
