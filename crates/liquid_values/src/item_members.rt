// The members of items, of data, and of all that names and members stand for.
ghost use Rattle.std.specs.Prelude.{◌≡◌};
ghost use Rattle.site_base.specs.View.{plain};
ghost use Rattle.read_record.specs.Queries.{Ask, run};
ghost use Rattle.read_record.specs.declared.key.Key.TheVariants.{Content};
ghost use Rattle.read_record.specs.Answers.{Finds};
ghost use Rattle.liquid_values.specs.Answers.{found_of, in_found};
ghost use Rattle.liquid_values.specs.Names.{given};
ghost use Rattle.liquid_values.specs.Operands.{content_of, output_of, item_member, value_member, data_member, member_of_data, member, numbered, unnamed, indexed, index_found};
ghost use Rattle.liquid_values.specs.Standing.{manner_of, place_of};

use crate::Mode;
use crate::excerpts::Excerpts;
use crate::found::Found;
use crate::loop_values::{for_loop_member, row_loop_member};
use crate::members::{element_at, member_value};
use crate::place::Place;
use crate::site_members::{ends_keys, site_member, with_key};
use crate::stop::Stop;
use crate::strict_options::{asked, looked_up, reached};
use read_record::{Key, Look, ask};
use site_base::{ItemName, List, Text, Value};
use std::alloc::Global;

/// The member of this name.
pub(crate) fn member<'a, X: Excerpts, L: Look>(
    alloc: Global,
    excerpts: &mut X,
    place: &Place<'a>,
    found: Found<'a>,
    name: &str,
    look: &mut L,
) -> Result<Found<'a>, Stop>
    ensures same { L.view look.new ≡ L.view look.old }
    ensures gives { Finds (run (L.view look.old) (L.trace look.old) (member (X.excerpts place.now.levels) (place_of place.now) (found_of found.entry) name.now)) (in_found result) (L.trace look.new) }
{
    match found {
        Found::Site => site_member(alloc, place, name, look),
        Found::Data(keys) => data_member(alloc, excerpts, place, keys, name, look),
        Found::Value(value) => value_member(alloc, excerpts, place, &value, name, look),
        Found::ForLoop(turn) => reached(alloc, place, for_loop_member(alloc, turn, name)?, look),
        Found::RowLoop(turn) => reached(alloc, place, row_loop_member(alloc, turn, name)?, look),
    }
}

// A further key of data, or a member of what it has under the keys so far.
fn data_member<'a, X: Excerpts, L: Look>(
    alloc: Global,
    excerpts: &mut X,
    place: &Place<'a>,
    keys: List,
    name: &str,
    look: &mut L,
) -> Result<Found<'a>, Stop>
    ensures same { L.view look.new ≡ L.view look.old }
    ensures gives { Finds (run (L.view look.old) (L.trace look.old) (data_member (X.excerpts place.now.levels) (place_of place.now) keys name.now)) (in_found result) (L.trace look.new) }
{
    if ends_keys(name) {
        member_of_data(alloc, excerpts, place, keys, name, look)
    } else {
        Ok(Found::Data(with_key(alloc, keys, name)?))
    }
}

#[tactic(auto, using(read_record::proofs::CallLaws::binds))]
fn member_of_data<'a, X: Excerpts, L: Look>(
    alloc: Global,
    excerpts: &mut X,
    place: &Place<'a>,
    keys: List,
    name: &str,
    look: &mut L,
) -> Result<Found<'a>, Stop>
    ensures same { L.view look.new ≡ L.view look.old }
    ensures gives { Finds (run (L.view look.old) (L.trace look.old) (member_of_data (X.excerpts place.now.levels) (place_of place.now) keys name.now)) (in_found result) (L.trace look.new) }
{
    let value = asked(alloc, place, &Key::Data(keys), look)?;
    value_member(alloc, excerpts, place, &value, name, look)
}

fn value_member<'a, X: Excerpts, L: Look>(
    alloc: Global,
    excerpts: &mut X,
    place: &Place<'a>,
    value: &Value,
    name: &str,
    look: &mut L,
) -> Result<Found<'a>, Stop>
    ensures same { L.view look.new ≡ L.view look.old }
    ensures gives { Finds (run (L.view look.old) (L.trace look.old) (value_member (X.excerpts place.now.levels) (place_of place.now) (plain value.now) name.now)) (in_found result) (L.trace look.new) }
{
    match value {
        Value::Item(item) => item_member(alloc, excerpts, place, item, name, look),
        _ => reached(alloc, place, member_value(alloc, value, name)?, look),
    }
}

fn item_member<'a, X: Excerpts, L: Look>(
    alloc: Global,
    excerpts: &mut X,
    place: &Place<'a>,
    item: &ItemName,
    name: &str,
    look: &mut L,
) -> Result<Found<'a>, Stop>
    ensures same { L.view look.new ≡ L.view look.old }
    ensures gives { Finds (run (L.view look.old) (L.trace look.old) (item_member (X.excerpts place.now.levels) (place_of place.now) item.now name.now)) (in_found result) (L.trace look.new) }
{
    match name {
        "content" => content_of(alloc, place, item, look),
        "output" => output_of(alloc, place, item, look),
        "excerpt" => excerpts.excerpt(alloc, place, item, look),
        _ => {
            let key = Key::Var(item.copy(alloc)?, Text::copy(alloc, name)?);
            looked_up(alloc, place, &key, look)
        }
    }
}

// The item's own text in its layouts, its source in an excerpt, and else its content.
fn content_of<'a, L: Look>(
    alloc: Global,
    place: &Place<'a>,
    item: &ItemName,
    look: &mut L,
) -> Result<Found<'a>, Stop>
    ensures same { L.view look.new ≡ L.view look.old }
    ensures gives { Finds (run (L.view look.old) (L.trace look.old) (content_of (place_of place.now) (manner_of place.now.mode.now) item.now)) (in_found result) (L.trace look.new) }
{
    match place.mode {
        Mode::Body => content(alloc, item, look),
        Mode::Excerpt => {
            let key = Key::Source(item.copy(alloc)?);
            Ok(Found::Value(ask(alloc, &key, look)?))
        }
        Mode::Layout {
            own,
            content: _,
            layout: _,
        } => {
            if *item == *place.page {
                Ok(Found::Value(Value::Text(own.share(alloc)?)))
            } else {
                content(alloc, item, look)
            }
        }
    }
}

fn content<'a, L: Look>(alloc: Global, item: &ItemName, look: &mut L) -> Result<Found<'a>, Stop>
    ensures same { L.view look.new ≡ L.view look.old }
    ensures gives { Finds (run (L.view look.old) (L.trace look.old) (Ask (Content item.now) given)) (in_found result) (L.trace look.new) }
{
    let key = Key::Content(item.copy(alloc)?);
    Ok(Found::Value(ask(alloc, &key, look)?))
}

// Nothing has an output in an excerpt.
fn output_of<'a, L: Look>(
    alloc: Global,
    place: &Place<'a>,
    item: &ItemName,
    look: &mut L,
) -> Result<Found<'a>, Stop>
    ensures same { L.view look.new ≡ L.view look.old }
    ensures gives { Finds (run (L.view look.old) (L.trace look.old) (output_of (manner_of place.now.mode.now) item.now)) (in_found result) (L.trace look.new) }
{
    if let Mode::Excerpt = place.mode {
        return Ok(Found::Value(Value::Nil));
    }
    let key = Key::Output(item.copy(alloc)?);
    Ok(Found::Value(ask(alloc, &key, look)?))
}

/// The member that another value names, which is looked up first.
#[tactic(auto, using(read_record::proofs::CallLaws::binds))]
pub(crate) fn index_found<'a, X: Excerpts, L: Look>(
    alloc: Global,
    excerpts: &mut X,
    place: &Place<'a>,
    found: Found<'a>,
    index: Found<'a>,
    look: &mut L,
) -> Result<Found<'a>, Stop>
    ensures same { L.view look.new ≡ L.view look.old }
    ensures gives { Finds (run (L.view look.old) (L.trace look.old) (index_found (X.excerpts place.now.levels) (place_of place.now) (found_of found.entry) (found_of index.entry))) (in_found result) (L.trace look.new) }
{
    let index = index.into_value(alloc, place, look)?;
    indexed(alloc, excerpts, place, found, &index, look)
}

// What stands in brackets names a member, or is a place.
fn indexed<'a, X: Excerpts, L: Look>(
    alloc: Global,
    excerpts: &mut X,
    place: &Place<'a>,
    found: Found<'a>,
    index: &Value,
    look: &mut L,
) -> Result<Found<'a>, Stop>
    ensures same { L.view look.new ≡ L.view look.old }
    ensures gives { Finds (run (L.view look.old) (L.trace look.old) (indexed (X.excerpts place.now.levels) (place_of place.now) (found_of found.entry) (plain index.now))) (in_found result) (L.trace look.new) }
{
    match index {
        Value::Text(name) => member(alloc, excerpts, place, found, name.as_str(), look),
        Value::Int(number) => numbered(alloc, place, found, *number, look),
        _ => unnamed(alloc, place, found, look),
    }
}

#[tactic(auto, using(read_record::proofs::CallLaws::binds))]
fn numbered<'a, L: Look>(
    alloc: Global,
    place: &Place<'a>,
    found: Found<'a>,
    number: i64,
    look: &mut L,
) -> Result<Found<'a>, Stop>
    ensures same { L.view look.new ≡ L.view look.old }
    ensures gives { Finds (run (L.view look.old) (L.trace look.old) (numbered (place_of place.now) (found_of found.entry) number)) (in_found result) (L.trace look.new) }
{
    let value = found.into_value(alloc, place, look)?;
    reached(alloc, place, element_at(alloc, &value, number)?, look)
}

// What neither a text nor a number names is undefined. Data is looked up all the same.
#[tactic(auto, using(read_record::proofs::CallLaws::binds))]
fn unnamed<'a, L: Look>(
    alloc: Global,
    place: &Place<'a>,
    found: Found<'a>,
    look: &mut L,
) -> Result<Found<'a>, Stop>
    ensures same { L.view look.new ≡ L.view look.old }
    ensures gives { Finds (run (L.view look.old) (L.trace look.old) (unnamed (place_of place.now) (found_of found.entry))) (in_found result) (L.trace look.new) }
{
    let _value = found.into_value(alloc, place, look)?;
    reached(alloc, place, None, look)
}
