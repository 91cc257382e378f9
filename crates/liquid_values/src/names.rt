// What first names stand for, and the members of `site`.
ghost use Rattle.std.specs.Prelude.{◌≡◌, IfOk, OnOk};
ghost use Rattle.std.specs.Option.{option_map};
ghost use Rattle.site_base.specs.View.{plain};
ghost use Rattle.site_base.specs.Plain.{onto_pairs, pair, no_pairs, text};
ghost use Rattle.read_record.specs.Queries.{run};
ghost use Rattle.read_record.specs.Answers.{Finds};
ghost use Rattle.liquid_values.specs.Answers.{in_found};
ghost use Rattle.liquid_values.specs.Names.{jekyll, layout_name, standing, named};
ghost use Rattle.liquid_values.specs.Standing.{manner_of, place_of};

use crate::Mode;
use crate::found::Found;
use crate::locals::local;
use crate::place::Place;
use crate::stop::Stop;
use crate::strict_options::{looked_up, reached};
use read_record::{Key, Look};
use site_base::{Hash, Memory, Text, Value, copy};
use std::alloc::Global;

/// What a first name stands for: a variable of a loop or an include around, one that was assigned, or what needs no variable.
pub(crate) fn named<'a, L: Look>(
    alloc: Global,
    place: &Place<'a>,
    assigned: &Hash,
    name: &str,
    look: &mut L,
) -> Result<Found<'a>, Stop>
    ensures same { L.view look.new ≡ L.view look.old }
    ensures gives { Finds (run (L.view look.old) (L.trace look.old) (named (place_of place.now) assigned.now name.now)) (in_found result) (L.trace look.new) }
{
    if let Some(bound) = local(place.locals, name) {
        return Ok(Found::of_bound(alloc, *bound)?);
    }
    if let Some(value) = assigned.get(name) {
        return Ok(Found::Value(copy(alloc, value)?));
    }
    standing(alloc, place, name, look)
}

// The names that need no variable.
fn standing<'a, L: Look>(
    alloc: Global,
    place: &Place<'a>,
    name: &str,
    look: &mut L,
) -> Result<Found<'a>, Stop>
    ensures same { L.view look.new ≡ L.view look.old }
    ensures gives { Finds (run (L.view look.old) (L.trace look.old) (standing (place_of place.now) name.now)) (in_found result) (L.trace look.new) }
{
    match name {
        "site" => Ok(Found::Site),
        "page" => Ok(Found::Value(Value::Item(place.page.copy(alloc)?))),
        "paginator" => {
            let key = Key::Paginator(place.page.copy(alloc)?);
            looked_up(alloc, place, &key, look)
        }
        "jekyll" => Ok(Found::Value(jekyll(alloc)?)),
        _ => reached(alloc, place, layout_name(alloc, place.mode, name)?, look),
    }
}

fn jekyll(alloc: Global) -> Result<Value, Memory>
    ensures { IfOk result (λ made. plain made ≡ jekyll) }
{
    let mut hash = Hash::new(alloc);
    push_text(alloc, &mut hash, "environment", "development")?;
    push_text(alloc, &mut hash, "version", "4")?;
    Ok(Value::Hash(hash))
}

fn push_text(alloc: Global, hash: &mut Hash, key: &str, words: &str) -> Result<(), Memory>
    ensures { OnOk result (hash.new ≡ onto_pairs hash.old (pair key.now (text words.now) no_pairs)) }
{
    hash.push(
        Text::copy(alloc, key)?,
        Value::Text(Text::copy(alloc, words)?),
    )
}

// The names that only a layout has.
fn layout_name(alloc: Global, mode: &Mode, name: &str) -> Result<Option<Value>, Memory>
    ensures { IfOk result (λ made. option_map plain made ≡ layout_name name.now (manner_of mode.now)) }
{
    match mode {
        Mode::Layout {
            own: _,
            content,
            layout,
        } => match name {
            "content" => Ok(Some(Value::Text(content.share(alloc)?))),
            "layout" => Ok(Some(copy(alloc, layout)?)),
            _ => Ok(None),
        },
        Mode::Body => Ok(None),
        Mode::Excerpt => Ok(None),
    }
}
