// Inlines, read from left to right.
ghost use Rattle.std.specs.Prelude.{◌≡◌, ◌+◌, ◌<◌, ◌≤◌, ◌-◌, ◌^◌, ℕ, All, List, Some, [], ◌∷◌, ◌++◌, IfOk, IfSome, OnOk, drop, length, option_map, replicate, slice_get};
ghost use Rattle.std.specs.Str.{IsCharBoundary};
ghost use Rattle.markdown_grammar.specs.Reading.{inlines};
ghost use Rattle.cm_spans.specs.Missing.{Lacks};
ghost use Rattle.cm_inlines.specs.Places.{IsLast, Lists, Shut, is_bracket, places};
ghost use Rattle.cm_inlines.specs.States.{Closes, Reads, Sound};
ghost use Rattle.cm_inlines.specs.Targets.{reached_pair};
ghost use Rattle.cm_inlines.specs.Steps.{closed_nodes, found_at, image_nodes, inside_paired, last_opening, link_nodes, opening_node, opening_of, reached_by, run_node, run_nodes, span_nodes, taken_by, unlinked_nodes};
ghost use Rattle.cm_inlines.specs.declared.node.Node.TheVariants.{Nothing};

use crate::changes::{Change, change_each, put};
use crate::delimiters::Delimiters;
use crate::inlines::Inlines;
use crate::node::{Node, Opening, Run, Target};
use crate::pairing::pair_runs;
use crate::targets::{Reached, target_of};
use cm_links::Links;
use cm_spans::{Marks, MissingEnds, Span, span_at, words_len};
use site_base::Memory;
use std::alloc::Global;

/// The inlines of a text, where these definitions of links are known.
pub fn read_inlines<'a>(alloc: Global, text: &'a str, links: &Links) -> Result<Inlines<'a>, Memory>
    ensures { IfOk result (λ found. found ≡ inlines links.now text.now) }
{
    let mut nodes = Vec::new(alloc);
    let mut delimiters = Delimiters::new(alloc);
    let mut missing = MissingEnds::new(alloc);
    let mut at = 0;
    while at < text.len() {
        match read_piece(
            alloc,
            &mut nodes,
            &mut delimiters,
            text,
            at,
            links,
            &mut missing,
        ) {
            Ok(n) => at += n,
            Err(_) => return Err(Memory),
        }
    }
    // A bracket that still waits begins nothing.
    change_each(&mut nodes, delimiters.brackets.as_slice(), Change::Freeze);
    pair_runs(alloc, &mut nodes, delimiters.runs.as_slice())?;
    Ok(Inlines::from_nodes(nodes))
}

// The pieces at a place: how many bytes they take.
fn read_piece<'a>(
    alloc: Global,
    nodes: &mut Vec<Node<'a>>,
    delimiters: &mut Delimiters,
    text: &'a str,
    at: usize,
    links: &Links,
    missing: &mut MissingEnds,
) -> Result<usize, Memory>
    requires inside { at < length text.now }
    requires sound { Sound text.now at nodes.old.items }
    requires listed { Lists delimiters.old nodes.old.items }
    requires lacks { Lacks missing.old (drop at text.now) }
    ensures reads { IfOk result (λ n. Reads links.now text.now at nodes.old.items nodes.new.items n) }
    ensures listed { OnOk result (Lists delimiters.new nodes.new.items) }
    ensures kept { Lacks missing.new (drop at text.now) }
{
    let n = words_len(text, at);
    if n > 0 {
        push(nodes, Node::Words(&text[at..at + n]))?;
        return Ok(n);
    }
    read_other(alloc, nodes, delimiters, text, at, links, missing)
}

// The piece at a place where no word stands.
fn read_other<'a>(
    alloc: Global,
    nodes: &mut Vec<Node<'a>>,
    delimiters: &mut Delimiters,
    text: &'a str,
    at: usize,
    links: &Links,
    missing: &mut MissingEnds,
) -> Result<usize, Memory>
    requires inside { at < length text.now }
    requires sound { Sound text.now at nodes.old.items }
    requires listed { Lists delimiters.old nodes.old.items }
    requires lacks { Lacks missing.old (drop at text.now) }
    ensures reads { IfOk result (λ n. Reads links.now text.now at nodes.old.items nodes.new.items n) }
    ensures listed { OnOk result (Lists delimiters.new nodes.new.items) }
    ensures kept { Lacks missing.new (drop at text.now) }
{
    if text.as_bytes()[at] == b']' {
        let n = close_bracket(alloc, nodes, delimiters, text, at, links)?;
        return Ok(n + 1);
    }
    let taken = span_at(text, at, missing);
    delimiters.add(&taken.span, nodes.len())?;
    push_span(nodes, taken.span, at)?;
    Ok(taken.len)
}

fn push_span<'a>(nodes: &mut Vec<Node<'a>>, span: Span<'a>, at: usize) -> Result<(), Memory>
    requires { at + 2 < 2 ^ 64 }
    ensures { OnOk result (nodes.new.items ≡ nodes.old.items ++ span_nodes span.entry at) }
{
    match span {
        Span::Text(text) => push(nodes, Node::Text(text)),
        Span::Character(c) => push(nodes, Node::Character(c)),
        Span::SoftBreak => push(nodes, Node::SoftBreak),
        Span::HardBreak => push(nodes, Node::HardBreak),
        Span::Code(text) => push(nodes, Node::Code(text)),
        Span::Html(text) => push(nodes, Node::Html(text)),
        Span::Uri(text) => push(nodes, Node::Uri(text)),
        Span::Email(text) => push(nodes, Node::Email(text)),
        Span::Run(marks) => push_run(nodes, marks),
        Span::Bracket => push_opening(nodes, false, at + 1),
        Span::ImageBracket => push_opening(nodes, true, at + 2),
    }
}

fn push<'a>(nodes: &mut Vec<Node<'a>>, node: Node<'a>) -> Result<(), Memory>
    ensures { OnOk result (nodes.new.items ≡ nodes.old.items ++ node.entry ∷ []) }
{
    match nodes.push(node) {
        Ok(()) => Ok(()),
        Err(_) => Err(Memory),
    }
}

fn push_opening<'a>(nodes: &mut Vec<Node<'a>>, is_image: bool, behind: usize) -> Result<(), Memory>
    ensures { OnOk result (nodes.new.items ≡ nodes.old.items ++ opening_node is_image behind ∷ []) }
{
    let opening = Opening {
        is_image,
        is_active: true,
        behind,
    };
    push(nodes, Node::Opening(opening))
}

// A run of marks, with a place for each that may come to open or close something.
fn push_run<'a>(nodes: &mut Vec<Node<'a>>, marks: Marks) -> Result<(), Memory>
    ensures { OnOk result (nodes.new.items ≡ nodes.old.items ++ run_nodes marks) }
{
    push(nodes, run_node(marks))?;
    push_nothing(nodes, marks.len)
}

fn run_node<'a>(marks: Marks) -> Node<'a>
    ensures { result ≡ run_node marks }
{
    Node::Run(Run {
        mark: marks.mark,
        len: marks.len,
        first: marks.len,
        opens: marks.opens,
        closes: marks.closes,
    })
}

// One place less than a run has marks.
fn push_nothing<'a>(nodes: &mut Vec<Node<'a>>, len: usize) -> Result<(), Memory>
    ensures { OnOk result (nodes.new.items ≡ nodes.old.items ++ replicate (len - 1) Nothing) }
{
    let mut left = len;
    while left > 1 {
        push(nodes, Node::Nothing)?;
        left -= 1;
    }
    Ok(())
}

// A closing bracket: how many bytes behind it are taken.
fn close_bracket<'a>(
    alloc: Global,
    nodes: &mut Vec<Node<'a>>,
    delimiters: &mut Delimiters,
    text: &'a str,
    at: usize,
    links: &Links,
) -> Result<usize, Memory>
    requires bracket { slice_get text.now at ≡ Some 93 }
    requires sound { Sound text.now at nodes.old.items }
    requires listed { Lists delimiters.old nodes.old.items }
    ensures value { IfOk result (λ n. Closes links.now text.now at nodes.old.items nodes.new.items n) }
    ensures listed { OnOk result (Lists delimiters.new nodes.new.items) }
{
    match last_opening(nodes.as_slice(), delimiters.brackets.as_slice()) {
        Some(found) => {
            let reached = reached(alloc, text, at, links, found.opening)?;
            delimiters.remove_bracket(found.opening);
            close_at(alloc, nodes, delimiters, found, reached)
        }
        None => {
            push(nodes, Node::Character(']'))?;
            Ok(0)
        }
    }
}

/// A bracket, and where it stands.
#[derive(Clone, Copy)]
struct Found {
    place: usize,
    opening: Opening,
}

// The last bracket that may begin a link or an image.
fn last_opening(nodes: &[Node], brackets: &[usize]) -> Option<Found>
    requires { brackets.now ≡ places is_bracket 0 nodes.now }
    ensures { result ≡ last_opening nodes.now }
{
    match brackets.last() {
        Some(place) => found_at(nodes, *place),
        None => None,
    }
}

fn found_at(nodes: &[Node], place: usize) -> Option<Found>
    ensures { result ≡ found_at place (opening_of (slice_get nodes.now place)) }
{
    match opening_at(nodes, place) {
        Some(opening) => Some(Found { place, opening }),
        None => None,
    }
}

fn opening_at(nodes: &[Node], place: usize) -> Option<Opening>
    ensures { result ≡ opening_of (slice_get nodes.now place) }
{
    if place < nodes.len() {
        opening_of(&nodes[place])
    } else {
        None
    }
}

fn opening_of(node: &Node) -> Option<Opening>
    ensures { result ≡ opening_of (Some node.now) }
{
    match node {
        Node::Opening(opening) => Some(*opening),
        _ => None,
    }
}

// Where the brackets go that begin there and end here.
fn reached(
    alloc: Global,
    text: &str,
    at: usize,
    links: &Links,
    opening: Opening,
) -> Result<Option<Reached>, Memory>
    requires bracket { slice_get text.now at ≡ Some 93 }
    requires order { opening.behind ≤ at }
    requires start { IsCharBoundary text.now opening.behind }
    requires end { IsCharBoundary text.now at }
    ensures value { IfOk result (λ found. option_map reached_pair found ≡ reached_by links.now text.now at opening) }
    ensures cut { IfOk result (λ found. IfSome found (λ reached. IsCharBoundary (drop (at + 1) text.now) reached.len)) }
{
    if opening.is_active {
        target_of(alloc, links, &text[opening.behind..at], &text[at + 1..])
    } else {
        Ok(None)
    }
}

// The brackets become a link or an image, or text.
fn close_at<'a>(
    alloc: Global,
    nodes: &mut Vec<Node<'a>>,
    delimiters: &mut Delimiters,
    found: Found,
    reached: Option<Reached>,
) -> Result<usize, Memory>
    requires { IsLast found delimiters.old nodes.old.items }
    ensures value { IfOk result (λ n. (nodes.new.items ≡ closed_nodes found reached nodes.old.items) × (n ≡ taken_by reached)) }
    ensures listed { OnOk result (Lists delimiters.new nodes.new.items) }
{
    match reached {
        Some(reached) => {
            let len = reached.len;
            if found.opening.is_image {
                make_image(alloc, nodes, delimiters, found, reached.target)?;
            } else {
                make_link(alloc, nodes, delimiters, found, reached.target)?;
            }
            Ok(len)
        }
        None => {
            leave_bracket(nodes, found)?;
            Ok(0)
        }
    }
}

// Both brackets are text.
fn leave_bracket<'a>(nodes: &mut Vec<Node<'a>>, found: Found) -> Result<(), Memory>
    ensures { OnOk result (nodes.new.items ≡ unlinked_nodes found nodes.old.items) }
{
    put(nodes, found.place, Node::Bracket(found.opening.is_image));
    push(nodes, Node::Character(']'))
}

fn make_image<'a>(
    alloc: Global,
    nodes: &mut Vec<Node<'a>>,
    delimiters: &mut Delimiters,
    found: Found,
    target: Target,
) -> Result<(), Memory>
    requires { IsLast found delimiters.old nodes.old.items }
    ensures value { OnOk result (nodes.new.items ≡ image_nodes found.place target nodes.old.items) }
    ensures listed { OnOk result (Lists delimiters.new nodes.new.items) }
{
    pair_inside(alloc, nodes, delimiters, found)?;
    put(nodes, found.place, Node::OpenImage(target));
    push(nodes, Node::CloseImage)
}

// No link stands in a link: the brackets before it open none.
fn make_link<'a>(
    alloc: Global,
    nodes: &mut Vec<Node<'a>>,
    delimiters: &mut Delimiters,
    found: Found,
    target: Target,
) -> Result<(), Memory>
    requires { IsLast found delimiters.old nodes.old.items }
    ensures value { OnOk result (nodes.new.items ≡ link_nodes found.place target nodes.old.items) }
    ensures listed { OnOk result (Lists delimiters.new nodes.new.items) }
{
    pair_inside(alloc, nodes, delimiters, found)?;
    put(nodes, found.place, Node::OpenLink(target));
    delimiters.calm(nodes);
    push(nodes, Node::CloseLink)
}

// What stands behind a bracket is paired, and paired no more.
fn pair_inside<'a>(
    alloc: Global,
    nodes: &mut Vec<Node<'a>>,
    delimiters: &mut Delimiters,
    found: Found,
) -> Result<(), Memory>
    requires { IsLast found delimiters.old nodes.old.items }
    ensures value { OnOk result (nodes.new.items ≡ inside_paired found.place nodes.old.items) }
    ensures shut { OnOk result (Shut found.place nodes.old.items nodes.new.items delimiters.new.runs.items) }
    ensures brackets { delimiters.new.brackets.items ≡ delimiters.old.brackets.items }
    ensures links { delimiters.new.links.items ≡ delimiters.old.links.items }
{
    let first = first_behind(delimiters.runs.as_slice(), found.place);
    let left = pair_runs(alloc, nodes, &delimiters.runs[first..])?;
    change_each(nodes, left.as_slice(), Change::Freeze);
    delimiters.runs.truncate(first);
    Ok(())
}

// Which of the places is the first behind one.
fn first_behind(places: &[usize], place: usize) -> usize
    ensures within { result ≤ length places.now }
    ensures value { (before behind : List ℕ) → places.now ≡ before ++ behind → All (λ p. p ≤ place) before → All (λ p. place < p) behind → result ≡ length before }
{
    places.partition_point(|run| *run <= place)
}
