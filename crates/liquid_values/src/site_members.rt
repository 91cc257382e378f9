// The members of `site`.
ghost use Rattle.std.specs.Prelude.{◌≡◌, IfOk, map};
ghost use Rattle.site_base.specs.Plain.{text};
ghost use Rattle.filter_base.specs.Answers.{limited};
ghost use Rattle.filter_base.specs.Dates.{date};
ghost use Rattle.liquid_values.specs.Places.{placed};
ghost use Rattle.site_base.specs.View.{plain, items_of};
ghost use Rattle.read_record.specs.Queries.{Ask, Give, run};
ghost use Rattle.read_record.specs.declared.key.Key.TheVariants.{SiteVar};
ghost use Rattle.read_record.specs.Answers.{Finds};
ghost use Rattle.liquid_values.specs.Answers.{in_found, in_plain};
ghost use Rattle.liquid_values.specs.Names.{ends_keys, is_item, others, holds_item, items_in, related, site_member, time_query, with_key};
ghost use Rattle.liquid_values.specs.Standing.{place_of};

use crate::filters::apply_liquid;
use crate::found::Found;
use crate::place::Place;
use crate::stop::Stop;
use crate::strict_options::looked_up;
use liquid_filters::FilterName;
use read_record::{Key, Look, ask};
use site_base::{ItemName, List, Memory, Text, Value, copy};
use std::alloc::Global;

/// How the moment of the build is written.
const TIME_PATTERN: &str = "%Y-%m-%d %H:%M:%S %z";

/// How many other posts are related to one.
const MOST_RELATED: u64 = 10;

/// The member of `site`: the data, the moment of the build, other posts, or a variable of the site.
#[tactic(auto, using(read_record::proofs::CallLaws::binds))]
pub(crate) fn site_member<'a, L: Look>(
    alloc: Global,
    place: &Place<'a>,
    name: &str,
    look: &mut L,
) -> Result<Found<'a>, Stop>
    ensures same { L.view look.new ≡ L.view look.old }
    ensures gives { Finds (run (L.view look.old) (L.trace look.old) (site_member (place_of place.now) name.now)) (in_found result) (L.trace look.new) }
{
    match name {
        "data" => Ok(Found::Data(List::new(alloc))),
        "time" => Ok(Found::Value(site_time(alloc, place, look)?)),
        "related_posts" => {
            let posts = site_variable(alloc, "posts", look)?;
            Ok(Found::Value(related(alloc, place.page, &posts)?))
        }
        _ => {
            let key = Key::SiteVar(Text::copy(alloc, name)?);
            looked_up(alloc, place, &key, look)
        }
    }
}

/// Whether a name is no key of data, since lists have it too: it may stand for a count or an element.
pub(crate) fn ends_keys(name: &str) -> bool
    ensures { result ≡ ends_keys name.now }
{
    name == "size" || name == "first" || name == "last"
}

/// The keys of data, and one behind them.
pub(crate) fn with_key(alloc: Global, mut keys: List, key: &str) -> Result<List, Memory>
    ensures { IfOk result (λ made. made ≡ with_key keys key.now) }
{
    keys.push(Value::Text(Text::copy(alloc, key)?))?;
    Ok(keys)
}

// The moment of the build, as dates are written.
fn site_time<'a, L: Look>(alloc: Global, place: &Place<'a>, look: &mut L) -> Result<Value, Stop>
    ensures same { L.view look.new ≡ L.view look.old }
    ensures gives { Finds (run (L.view look.old) (L.trace look.old) (time_query (place_of place.now))) (in_plain result) (L.trace look.new) }
{
    let now = words(alloc, "now")?;
    let pattern = words(alloc, TIME_PATTERN)?;
    dated(alloc, place, &now, &[pattern], look)
}

// What the filter `date` makes of a value.
fn dated<'a, L: Look>(
    alloc: Global,
    place: &Place<'a>,
    input: &Value,
    args: &[Value],
    look: &mut L,
) -> Result<Value, Stop>
    ensures same { L.view look.new ≡ L.view look.old }
    ensures gives { Finds (run (L.view look.old) (L.trace look.old) (placed (place_of place.now) (limited (date (plain input.now) (map plain args.now))))) (in_plain result) (L.trace look.new) }
{
    apply_liquid(alloc, place, FilterName::Date, input, args, look)
}

fn words(alloc: Global, words: &str) -> Result<Value, Memory>
    ensures { IfOk result (λ value. plain value ≡ text words.now) }
{
    Ok(Value::Text(Text::copy(alloc, words)?))
}

/// A variable of the site.
pub(crate) fn site_variable<L: Look>(alloc: Global, name: &str, look: &mut L) -> Result<Value, Stop>
    ensures same { L.view look.new ≡ L.view look.old }
    ensures gives { Finds (run (L.view look.old) (L.trace look.old) (Ask (SiteVar name.now) Give)) (in_plain result) (L.trace look.new) }
{
    let key = Key::SiteVar(Text::copy(alloc, name)?);
    ask(alloc, &key, look)
}

// Ten other posts, where this is one.
fn related(alloc: Global, item: &ItemName, posts: &Value) -> Result<Value, Memory>
    ensures { IfOk result (λ made. plain made ≡ related item.now (plain posts.now)) }
{
    let values = items_in(posts);
    if holds_item(item, values) {
        Ok(Value::List(others(alloc, item, values)?))
    } else {
        Ok(Value::Nil)
    }
}

pub fn items_in(value: &Value) -> &[Value]
    ensures { items_of result.now ≡ items_in (plain value.now) }
{
    match value {
        Value::List(list) => list.as_slice(),
        _ => &[],
    }
}

/// Whether the item is among the values.
pub fn holds_item(item: &ItemName, values: &[Value]) -> bool
    ensures { result ≡ holds_item item.now (items_of values.now) }
{
    for value in values {
        if is_item(item, value) {
            return true;
        }
    }
    false
}

fn is_item(item: &ItemName, value: &Value) -> bool
    ensures { result ≡ is_item item.now (plain value.now) }
{
    match value {
        Value::Item(other) => *other == *item,
        _ => false,
    }
}

// The first that are not this item.
fn others(alloc: Global, item: &ItemName, values: &[Value]) -> Result<List, Memory>
    ensures { IfOk result (λ list. list ≡ others item.now 10 (items_of values.now)) }
{
    let mut list = List::new(alloc);
    let mut left = MOST_RELATED;
    for value in values {
        if left == 0 {
            return Ok(list);
        }
        if !is_item(item, value) {
            list.push(copy(alloc, value)?)?;
            left -= 1;
        }
    }
    Ok(list)
}
