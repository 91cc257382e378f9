// The blocks of a text as HTML.
ghost use Rattle.std.specs.Prelude.{◌≡◌, ◌<◌, ◌≤◌, IfErr, IfOk, [], length};
ghost use Rattle.markdown_grammar.specs.Html.{html};
ghost use Rattle.cm_print.specs.NodeWalk.{entered, inside, state, walk, whole};
ghost use Rattle.cm_print.specs.Printing.{Finishes, Moves, closed_at, state_of};
ghost use Rattle.cm_print.specs.Writing.{written};
ghost use Rattle.markdown_grammar.specs.declared.html_error.HtmlError.TheVariants.{TooLong};

use crate::level::{Closing, Level};
use crate::writer::Writer;
use cm_blocks::{Node, documents_have_the_html_of_their_blocks, read_blocks};
use cm_links::Links;
use markdown_grammar::HtmlError;
use site_base::Text;
use std::alloc::Global;

/// The HTML of a Markdown text, as CommonMark 0.31.2 gives it, of at most `most` bytes. Memory that is wanting is answered as
/// Memory; otherwise TooLong comes exactly where the HTML is longer.
pub fn to_html(alloc: Global, text: &str, most: u64) -> Result<Text, HtmlError>
    ensures made { IfOk result (λ made. made ≡ html text.now) }
    ensures fits { IfOk result (λ made. length made ≤ most) }
    ensures refused { IfErr result (λ error. error ≡ TooLong → most < length (html text.now)) }
{
    let blocks = read_blocks(alloc, text)?;
    documents_have_the_html_of_their_blocks();
    let mut printer = Printer::new(alloc, most, blocks.nodes.len());
    printer.print(alloc, &blocks.links, blocks.nodes.as_slice())?;
    Ok(Text::from_string(printer.writer.text)?)
}

/// HTML that is being made of nodes: the innermost level of blocks, and those around it, the innermost last.
#[derive(Drop)]
pub(crate) struct Printer {
    writer: Writer,
    top: Level,
    outer: Vec<Level>,
}

impl Printer {
    // Nothing printed, of a text with so many nodes.
    fn new(alloc: Global, most: u64, nodes: usize) -> Printer
        ensures state { state_of result ≡ state (whole nodes) [] [] }
        ensures most { result.writer.most ≡ most }
    {
        Printer {
            writer: Writer::new(alloc, most),
            top: Level {
                end: nodes as u128,
                is_tight: false,
                closing: Closing::Text,
            },
            outer: Vec::new(alloc),
        }
    }

    fn print(&mut self, alloc: Global, links: &Links, nodes: &[Node]) -> Result<(), HtmlError>
        ensures { Finishes self.old self.new (walk links.now 0 (state_of self.old) nodes.now) result }
    {
        let mut place = 0;
        while place < nodes.len() {
            self.step(alloc, links, place, &nodes[place])?;
            place += 1;
        }
        self.close(place)
    }

    // A node, behind the levels that end before it.
    fn step(
        &mut self,
        alloc: Global,
        links: &Links,
        place: usize,
        node: &Node,
    ) -> Result<(), HtmlError>
        ensures { Moves self.old self.new (entered links.now place (closed_at place (state_of self.old)) node.now) result }
    {
        self.close(place)?;
        self.enter(alloc, links, place, node)
    }

    // Closes the levels that end at a place.
    fn close(&mut self, place: usize) -> Result<(), HtmlError>
        ensures { Moves self.old self.new (closed_at place (state_of self.old)) result }
    {
        while self.top.end == place as u128 {
            let Some(next) = self.outer.pop() else {
                return Ok(());
            };
            self.writer.push_end(self.top.closing)?;
            self.top = next;
        }
        Ok(())
    }

    fn enter(
        &mut self,
        alloc: Global,
        links: &Links,
        place: usize,
        node: &Node,
    ) -> Result<(), HtmlError>
        ensures { Moves self.old self.new (entered links.now place (state_of self.old) node.now) result }
    {
        match node {
            Node::Paragraph { text } => {
                let is_tight = self.top.is_tight;
                self.writer
                    .push_paragraph(alloc, links, is_tight, text.as_str())
            }
            Node::Heading { level, text } => {
                self.writer
                    .push_heading(alloc, links, *level, text.as_str())
            }
            Node::Break => self.writer.push_line("<hr />\n"),
            Node::Code { info, text } => {
                self.writer
                    .push_code_block(alloc, info.as_str(), text.as_str())
            }
            Node::Html { text } => self.writer.push_line(text.as_str()),
            Node::Quote { len } => {
                self.writer.push_line("<blockquote>\n")?;
                self.go_inside(place, *len, false, Closing::Quote)
            }
            Node::List {
                mark,
                number,
                is_loose,
                len,
            } => {
                self.writer.push_list_start(alloc, *mark, *number)?;
                self.go_inside(place, *len, !*is_loose, Closing::List { mark: *mark })
            }
            Node::Item { len } => {
                self.writer.push("<li>")?;
                self.go_inside(place, *len, self.top.is_tight, Closing::Item)
            }
        }
    }

    // Into a container at a place, with so many nodes inside.
    fn go_inside(
        &mut self,
        place: usize,
        len: usize,
        is_tight: bool,
        closing: Closing,
    ) -> Result<(), HtmlError>
        ensures { Moves self.old self.new (inside place (state_of self.old) len is_tight closing (written self.old.writer)) result }
    {
        self.outer.push(self.top)?;
        self.top = Level {
            end: place as u128 + 1 + len as u128,
            is_tight,
            closing,
        };
        Ok(())
    }
}
