// Inlines as HTML.
ghost use Rattle.std.specs.Prelude.{◌≡◌, ◌++◌, None, Some, codes, encode_utf8, replicate};
ghost use Rattle.std.specs.Option.{option_copied};
ghost use Rattle.markdown_grammar.specs.Escaping.{escaped, title_text};
ghost use Rattle.site_text.specs.Urls.{escaped_byte, url_text};
ghost use Rattle.markdown_grammar.specs.CodeSpans.{spaced};
ghost use Rattle.markdown_grammar.specs.Emphasis.{bracket_text};
ghost use Rattle.markdown_grammar.specs.InlineHtml.{inline_html};
ghost use Rattle.cm_spans.specs.Pieces.{mark_byte};
ghost use Rattle.cm_print.specs.InlineNodes.{node_text, place_of};
ghost use Rattle.cm_print.specs.InlineTokens.{image_end, link_start};
ghost use Rattle.cm_print.specs.Writing.{Prints};
ghost use Rattle.cm_print.specs.declared.inline_place.Place.{Place};

use crate::inline_place::{Place, behind};
use crate::writer::Writer;
use cm_inlines::{Inlines, Node, Target};
use cm_spans::Mark;
use markdown_grammar::HtmlError;
use site_base::Text;

impl Writer {
    /// Adds inlines.
    pub(crate) fn push_inlines(&mut self, inlines: &Inlines<'_>) -> Result<(), HtmlError>
        ensures { Prints self.old self.new (inline_html inlines.now) result }
    {
        let mut place = Place::Outside;
        for node in inlines.nodes() {
            self.push_node(place, node)?;
            place = behind(place, node);
        }
        Ok(())
    }

    fn push_node(&mut self, place: Place<'_>, node: &Node<'_>) -> Result<(), HtmlError>
        ensures { Prints self.old self.new (node_text (place_of place.entry) node.now) result }
    {
        match place {
            Place::Outside => self.push_shown(node),
            Place::Described { title, images } => self.push_described(title, images, node),
        }
    }

    // A node outside of images.
    fn push_shown(&mut self, node: &Node<'_>) -> Result<(), HtmlError>
        ensures { Prints self.old self.new (node_text (place_of Place.Outside) node.now) result }
    {
        match node {
            Node::Text(text) | Node::Words(text) => self.push_text(text),
            Node::Character(c) => self.push_character(*c),
            Node::SoftBreak => self.push("\n"),
            Node::HardBreak => self.push("<br />\n"),
            Node::Code(text) => self.push_code_span(text),
            Node::Html(text) => self.push(text),
            Node::Uri(text) => self.push_uri(text),
            Node::Email(text) => self.push_email(text),
            Node::OpenEmphasis => self.push("<em>"),
            Node::CloseEmphasis => self.push("</em>"),
            Node::OpenStrong => self.push("<strong>"),
            Node::CloseStrong => self.push("</strong>"),
            Node::OpenLink(target) => self.push_link_start(target),
            Node::CloseLink => self.push("</a>"),
            Node::OpenImage(target) => self.push_image_start(target),
            Node::CloseImage => Ok(()),
            Node::Marks(mark, len) => self.push_marks(*mark, *len),
            Node::Bracket(is_image) => self.push_bracket(*is_image),
            Node::Run(run) => self.push_marks(run.mark, run.len),
            Node::Opening(opening) => self.push_bracket(opening.is_image),
            Node::Nothing => Ok(()),
        }
    }

    fn push_character(&mut self, c: char) -> Result<(), HtmlError>
        ensures { Prints self.old self.new (escaped (encode_utf8 c)) result }
    {
        let mut bytes = [0; 4];
        self.push_text(c.encode_utf8(&mut bytes))
    }

    fn push_code_span(&mut self, text: &str) -> Result<(), HtmlError>
        ensures { Prints self.old self.new (codes "<code>" ++ (escaped (spaced text.now) ++ codes "</code>")) result }
    {
        self.push("<code>")?;
        self.push_code(text)?;
        self.push("</code>")
    }

    fn push_uri(&mut self, address: &str) -> Result<(), HtmlError>
        ensures { Prints self.old self.new (link_start address.now None ++ (escaped address.now ++ codes "</a>")) result }
    {
        self.push_link_to(address, None)?;
        self.push_text(address)?;
        self.push("</a>")
    }

    fn push_email(&mut self, address: &str) -> Result<(), HtmlError>
        ensures { Prints self.old self.new (link_start (codes "mailto:" ++ address.now) None ++ (escaped address.now ++ codes "</a>")) result }
    {
        self.push("<a href=\"mailto:")?;
        self.push_url(address)?;
        self.push("\">")?;
        self.push_text(address)?;
        self.push("</a>")
    }

    fn push_link_start(&mut self, target: &Target) -> Result<(), HtmlError>
        ensures { Prints self.old self.new (link_start target.now.url target.now.title) result }
    {
        self.push_link_to(target.url.as_str(), target.title.as_ref())
    }

    fn push_link_to(&mut self, url: &str, title: Option<&Text>) -> Result<(), HtmlError>
        ensures { Prints self.old self.new (link_start url.now (option_copied title.entry)) result }
    {
        self.push("<a href=\"")?;
        self.push_url(url)?;
        self.push("\"")?;
        self.push_title(title)?;
        self.push(">")
    }

    fn push_image_start(&mut self, target: &Target) -> Result<(), HtmlError>
        ensures { Prints self.old self.new (codes "<img src=\"" ++ (url_text target.now.url ++ codes "\" alt=\"")) result }
    {
        self.push("<img src=\"")?;
        self.push_url(target.url.as_str())?;
        self.push("\" alt=\"")
    }

    fn push_title(&mut self, title: Option<&Text>) -> Result<(), HtmlError>
        ensures { Prints self.old self.new (title_text (option_copied title.entry)) result }
    {
        match title {
            Some(title) => self.push_given_title(title.as_str()),
            None => Ok(()),
        }
    }

    fn push_given_title(&mut self, title: &str) -> Result<(), HtmlError>
        ensures { Prints self.old self.new (title_text (Some title.now)) result }
    {
        self.push(" title=\"")?;
        self.push_text(title)?;
        self.push("\"")
    }

    fn push_bracket(&mut self, is_image: bool) -> Result<(), HtmlError>
        ensures { Prints self.old self.new (escaped (bracket_text is_image)) result }
    {
        if is_image {
            self.push("![")
        } else {
            self.push("[")
        }
    }

    fn push_marks(&mut self, mark: Mark, len: usize) -> Result<(), HtmlError>
        ensures { Prints self.old self.new (escaped (replicate len (mark_byte mark))) result }
    {
        for place in 0..len {
            self.push_mark(mark)?;
        }
        Ok(())
    }

    fn push_mark(&mut self, mark: Mark) -> Result<(), HtmlError>
        ensures { Prints self.old self.new (escaped_byte (mark_byte mark)) result }
    {
        match mark {
            Mark::Star => self.push("*"),
            Mark::Underscore => self.push("_"),
        }
    }

    // A node in the description of an image.
    fn push_described(
        &mut self,
        title: Option<&Text>,
        images: usize,
        node: &Node<'_>,
    ) -> Result<(), HtmlError>
        ensures { Prints self.old self.new (node_text (place_of (Place.Described title.entry images)) node.now) result }
    {
        match node {
            Node::Text(text) | Node::Words(text) => self.push_text(text),
            Node::Character(c) => self.push_character(*c),
            Node::SoftBreak | Node::HardBreak => self.push("\n"),
            Node::Code(text) => self.push_code(text),
            Node::Uri(text) | Node::Email(text) => self.push_text(text),
            Node::CloseImage => self.push_image_end(title, images),
            Node::Marks(mark, len) => self.push_marks(*mark, *len),
            Node::Bracket(is_image) => self.push_bracket(*is_image),
            Node::Run(run) => self.push_marks(run.mark, run.len),
            Node::Opening(opening) => self.push_bracket(opening.is_image),
            Node::Html(_)
            | Node::OpenEmphasis
            | Node::CloseEmphasis
            | Node::OpenStrong
            | Node::CloseStrong
            | Node::OpenLink(_)
            | Node::CloseLink
            | Node::OpenImage(_)
            | Node::Nothing => Ok(()),
        }
    }

    fn push_image_end(&mut self, title: Option<&Text>, images: usize) -> Result<(), HtmlError>
        ensures { Prints self.old self.new (image_end (option_copied title.entry) images) result }
    {
        if images > 0 {
            return Ok(());
        }
        self.push("\"")?;
        self.push_title(title)?;
        self.push(" />")
    }
}
