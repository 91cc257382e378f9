// What makes HTML of Markdown.
ghost use Rattle.std.specs.Prelude.{◌≡◌, ◌<◌, ◌≤◌, IfErr, IfOk, length};
ghost use Rattle.markdown_grammar.specs.Html.{html};
ghost use Rattle.markdown_grammar.specs.declared.html_error.HtmlError.TheVariants.{TooLong};

use crate::html_error::HtmlError;
use site_base::Text;
use std::alloc::Global;

/// What makes HTML of Markdown texts. What it makes is the meaning of the text, whoever makes it.
pub trait Convert {
    /// The HTML of a text, of at most `most` bytes. Memory that is wanting is answered as Memory; otherwise TooLong comes
    /// exactly where the HTML is longer.
    fn html(&self, alloc: Global, text: &str, most: u64) -> Result<Text, HtmlError>
        ensures made { IfOk result (λ made. made ≡ html text.now) }
        ensures fits { IfOk result (λ made. length made ≤ most) }
        ensures refused { IfErr result (λ error. error ≡ TooLong → most < length (html text.now)) };
}
