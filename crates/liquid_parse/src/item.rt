// What a piece says.
ghost use Rattle.std.specs.Prelude.{Some};
ghost use Rattle.liquid_grammar.specs.declared.piece.PieceKind.TheVariants as kind;
ghost use Rattle.liquid_grammar.specs.Items.{item_in, leaf_tag, opening, said, tag_item, turning};
ghost use Rattle.liquid_grammar.specs.declared.tag_kind.LeafName.TheVariants as leaf_name;
ghost use Rattle.liquid_parse.specs.ItemErrors.{GivesItem};

use crate::error::ItemError;
use crate::tags::tag_kind;
use liquid_expr::{
    read_assign, read_condition, read_cycle, read_expr, read_include, read_language, read_loop,
    read_name, read_nothing, read_path, read_values, tag_text, trimmed,
};
use liquid_grammar::{
    Block, BlockName, Item, Leaf, LeafName, LoopKind, Part, PartName, PieceKind, TagKind,
};
use site_base::{Boxed, FaultKind, Text};
use std::alloc::Global;

// The start of a block.
fn opening(alloc: Global, block: BlockName, rest: &str) -> Result<Item, ItemError>
    ensures { GivesItem result (opening block rest.now) }
{
    match block {
        BlockName::If => Ok(Item::Opens(
            Block::If,
            Part::Test(Boxed::new(alloc, read_condition(alloc, rest)?)?),
        )),
        BlockName::Unless => Ok(Item::Opens(
            Block::Unless,
            Part::Test(Boxed::new(alloc, read_condition(alloc, rest)?)?),
        )),
        BlockName::Case => Ok(Item::Opens(
            Block::Case(Boxed::new(alloc, read_expr(alloc, rest)?)?),
            Part::Body,
        )),
        BlockName::For => Ok(Item::Opens(
            Block::For(Boxed::new(alloc, read_loop(alloc, LoopKind::For, rest)?)?),
            Part::Body,
        )),
        BlockName::TableRow => Ok(Item::Opens(
            Block::TableRow(Boxed::new(alloc, read_loop(alloc, LoopKind::TableRow, rest)?)?),
            Part::Body,
        )),
        BlockName::Capture => Ok(Item::Opens(Block::Capture(read_name(alloc, rest)?), Part::Body)),
        BlockName::Highlight => Ok(Item::Opens(
            Block::Highlight(read_language(alloc, rest)?),
            Part::Body,
        )),
        BlockName::Raw => {
            read_nothing(alloc, rest)?;
            Ok(Item::Raw)
        }
        BlockName::Comment => {
            read_nothing(alloc, rest)?;
            Ok(Item::Comment)
        }
    }
}

// The start of the next part of a block.
fn turning(alloc: Global, part: PartName, rest: &str) -> Result<Item, ItemError>
    ensures { GivesItem result (turning part rest.now) }
{
    match part {
        PartName::Else => {
            read_nothing(alloc, rest)?;
            Ok(Item::Turns(Part::Otherwise))
        }
        PartName::ElsIf => Ok(Item::Turns(Part::Test(Boxed::new(
            alloc,
            read_condition(alloc, rest)?,
        )?))),
        PartName::When => Ok(Item::Turns(Part::When(Boxed::new(
            alloc,
            read_values(alloc, rest)?,
        )?))),
    }
}

// A tag that holds nothing else.
fn leaf_tag(alloc: Global, leaf: LeafName, rest: &str) -> Result<Item, ItemError>
    ensures { GivesItem result (leaf_tag leaf rest.now) }
{
    match leaf {
        LeafName::Assign => Ok(Item::Leaf(Leaf::Assign(Boxed::new(
            alloc,
            read_assign(alloc, rest)?,
        )?))),
        LeafName::Cycle => cycle_tag(alloc, rest),
        LeafName::Increment => Ok(Item::Leaf(Leaf::Increment(read_name(alloc, rest)?))),
        LeafName::Decrement => Ok(Item::Leaf(Leaf::Decrement(read_name(alloc, rest)?))),
        LeafName::Break => {
            read_nothing(alloc, rest)?;
            Ok(Item::Leaf(Leaf::Break))
        }
        LeafName::Continue => {
            read_nothing(alloc, rest)?;
            Ok(Item::Leaf(Leaf::Continue))
        }
        LeafName::Include => Ok(Item::Leaf(Leaf::Include(Boxed::new(
            alloc,
            read_include(alloc, rest)?,
        )?))),
        LeafName::IncludeRelative => Ok(Item::Leaf(Leaf::IncludeRelative(Boxed::new(
            alloc,
            read_include(alloc, rest)?,
        )?))),
        LeafName::Link => Ok(Item::Leaf(Leaf::Link(read_path(alloc, rest)?))),
        LeafName::PostUrl => Ok(Item::Leaf(Leaf::PostUrl(read_path(alloc, rest)?))),
    }
}

// A cycle, with the text that names its group where it names none.
fn cycle_tag(alloc: Global, rest: &str) -> Result<Item, ItemError>
    ensures { GivesItem result (leaf_tag leaf_name.Cycle rest.now) }
{
    let cycle = Boxed::new(alloc, read_cycle(alloc, rest)?)?;
    let text = Boxed::new(alloc, Text::copy(alloc, trimmed(rest))?)?;
    Ok(Item::Leaf(Leaf::Cycle(text, cycle)))
}

// What a tag says that is known.
fn said(alloc: Global, kind: TagKind, rest: &str) -> Result<Item, ItemError>
    ensures { GivesItem result (said (Some kind) rest.now) }
{
    match kind {
        TagKind::Opens(block) => opening(alloc, block, rest),
        TagKind::Ends(block) => {
            read_nothing(alloc, rest)?;
            Ok(Item::Ends(block))
        }
        TagKind::Turns(part) => turning(alloc, part, rest),
        TagKind::Leaf(leaf) => leaf_tag(alloc, leaf, rest),
    }
}

// What stands between the marks of a tag.
#[tactic(auto, unfolding(liquid_grammar::specs::Items::tag_item))]
fn tag_item(alloc: Global, text: &str) -> Result<Item, ItemError>
    ensures { GivesItem result (tag_item text.now) }
{
    let tag = tag_text(text);
    if tag.name.is_empty() {
        return Err(ItemError::Fault(FaultKind::LiquidSyntax));
    }
    match tag_kind(tag.name) {
        Some(kind) => said(alloc, kind, tag.rest),
        None => Err(ItemError::Fault(FaultKind::UnknownTag)),
    }
}

fn text_item(alloc: Global, text: &str) -> Result<Item, ItemError>
    ensures { GivesItem result (item_in kind.Text text.now) }
{
    if text.is_empty() {
        return Ok(Item::Nothing);
    }
    Ok(Item::Leaf(Leaf::Text(Text::copy(alloc, text)?)))
}

fn output_item(alloc: Global, text: &str) -> Result<Item, ItemError>
    ensures { GivesItem result (item_in kind.Output text.now) }
{
    let expr = Boxed::new(alloc, read_expr(alloc, text)?)?;
    Ok(Item::Leaf(Leaf::Output(expr)))
}

/// What a piece says whose inside is this text.
pub(crate) fn item_in(alloc: Global, piece: PieceKind, text: &str) -> Result<Item, ItemError>
    ensures { GivesItem result (item_in piece text.now) }
{
    match piece {
        PieceKind::Text => text_item(alloc, text),
        PieceKind::Output => output_item(alloc, text),
        PieceKind::Tag => tag_item(alloc, text),
    }
}
