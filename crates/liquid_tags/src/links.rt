// `link` and `post_url`.
ghost use Rattle.std.specs.Prelude.{◌≡◌};
ghost use Rattle.site_base.specs.View.{plain};
ghost use Rattle.read_record.specs.Queries.{run};
ghost use Rattle.liquid_values.specs.Answers.{Advances};
ghost use Rattle.liquid_values.specs.Standing.{place_of};
ghost use Rattle.liquid_tags.specs.Links as links;
ghost use Rattle.liquid_tags.specs.Links.{address, is_text, linked, post_linked, relative_address};

use crate::expressions::apply_jekyll;
use crate::file_names::name_text;
use crate::state::State;
use crate::tools::Tools;
use jekyll_filters::{AddressFilter, FilterName};
use liquid_grammar::NamePart;
use liquid_values::{Excerpts, Place, Stop};
use markdown_grammar::Convert;
use read_record::{Key, Look, ask};
use site_base::{FaultKind, PathError, SitePath, Text, Value};
use std::alloc::Global;

/// `link`: writes the address of the item or file at a path. LinkMissing comes exactly where the name makes no path, or nothing at the
/// path has an address.
#[tactic(auto, using(read_record::proofs::CallLaws::binds))]
pub fn link<'a, 'c, X: Excerpts, C: Convert, L: Look>(
    alloc: Global,
    tools: &mut Tools<'c, X, C>,
    place: &Place<'a>,
    parts: &[NamePart],
    state: &mut State,
    look: &mut L,
) -> Result<(), Stop>
    ensures same { L.view look.new ≡ L.view look.old }
    ensures gives { Advances (run (L.view look.old) (L.trace look.old) (links.link (X.excerpts place.now.levels) (place_of place.now) parts.now state.old)) result state.new (L.trace look.new) }
{
    let name = name_text(alloc, tools, place, &state.assigned, parts, look)?;
    linked(alloc, tools.convert, place, name.as_str(), state, look)
}

#[tactic(auto, using(read_record::proofs::CallLaws::binds))]
fn linked<'a, C: Convert, L: Look>(
    alloc: Global,
    convert: &C,
    place: &Place<'a>,
    name: &str,
    state: &mut State,
    look: &mut L,
) -> Result<(), Stop>
    ensures same { L.view look.new ≡ L.view look.old }
    ensures gives { Advances (run (L.view look.old) (L.trace look.old) (linked (place_of place.now) state.old name.now)) result state.new (L.trace look.new) }
{
    match SitePath::read(alloc, name) {
        Ok(path) => {
            let url = ask(alloc, &Key::Link(path), look)?;
            address(alloc, convert, place, &url, state, look)
        }
        Err(PathError::Memory) => Err(Stop::Memory),
        Err(_) => Err(place.fault(alloc, FaultKind::LinkMissing)),
    }
}

/// `post_url`: writes the address of the post of this name. LinkMissing comes exactly where no post has it.
#[tactic(auto, using(read_record::proofs::CallLaws::binds))]
pub fn post_url<'a, 'c, X: Excerpts, C: Convert, L: Look>(
    alloc: Global,
    tools: &mut Tools<'c, X, C>,
    place: &Place<'a>,
    parts: &[NamePart],
    state: &mut State,
    look: &mut L,
) -> Result<(), Stop>
    ensures same { L.view look.new ≡ L.view look.old }
    ensures gives { Advances (run (L.view look.old) (L.trace look.old) (links.post_url (X.excerpts place.now.levels) (place_of place.now) parts.now state.old)) result state.new (L.trace look.new) }
{
    let name = name_text(alloc, tools, place, &state.assigned, parts, look)?;
    post_linked(alloc, tools.convert, place, name, state, look)
}

#[tactic(auto, using(read_record::proofs::CallLaws::binds))]
fn post_linked<'a, C: Convert, L: Look>(
    alloc: Global,
    convert: &C,
    place: &Place<'a>,
    name: Text,
    state: &mut State,
    look: &mut L,
) -> Result<(), Stop>
    ensures same { L.view look.new ≡ L.view look.old }
    ensures gives { Advances (run (L.view look.old) (L.trace look.old) (post_linked (place_of place.now) state.old name)) result state.new (L.trace look.new) }
{
    let url = ask(alloc, &Key::Post(name), look)?;
    address(alloc, convert, place, &url, state, look)
}

#[tactic(auto, using(crate::proofs::IncludeLaws::fault_stops))]
fn address<'a, C: Convert, L: Look>(
    alloc: Global,
    convert: &C,
    place: &Place<'a>,
    url: &Value,
    state: &mut State,
    look: &mut L,
) -> Result<(), Stop>
    ensures same { L.view look.new ≡ L.view look.old }
    ensures gives { Advances (run (L.view look.old) (L.trace look.old) (address (place_of place.now) state.old (plain url.now))) result state.new (L.trace look.new) }
{
    if is_text(url) {
        relative_address(alloc, convert, place, url, state, look)
    } else {
        Err(place.fault(alloc, FaultKind::LinkMissing))
    }
}

// What `relative_url` gives for an address is written.
#[tactic(auto, using(read_record::proofs::CallLaws::binds))]
fn relative_address<'a, C: Convert, L: Look>(
    alloc: Global,
    convert: &C,
    place: &Place<'a>,
    url: &Value,
    state: &mut State,
    look: &mut L,
) -> Result<(), Stop>
    ensures same { L.view look.new ≡ L.view look.old }
    ensures gives { Advances (run (L.view look.old) (L.trace look.old) (relative_address (place_of place.now) state.old (plain url.now))) result state.new (L.trace look.new) }
{
    let filter = FilterName::Address(AddressFilter::RelativeUrl);
    let value = apply_jekyll(alloc, place, filter, url, &[], look, convert)?;
    state.write_value(alloc, place, &value)
}

fn is_text(value: &Value) -> bool
    ensures { result ≡ is_text (plain value.now) }
{
    matches!(value, Value::Text(_))
}
