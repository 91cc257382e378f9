// `include` and `include_relative`.
ghost use Rattle.std.specs.Prelude.{◌≡◌, IfOk, Ok};
ghost use Rattle.site_base.specs.Plain.{no_pairs};
ghost use Rattle.site_base.specs.View.{plain};
ghost use Rattle.read_record.specs.Queries.{run};
ghost use Rattle.read_record.specs.Answers.{Finds, in_plain};
ghost use Rattle.filter_base.specs.Limits.{fits};
ghost use Rattle.liquid_values.specs.Answers.{FoundAt};
ghost use Rattle.liquid_values.specs.Standing.{place_of};
ghost use Rattle.liquid_tags.specs.Answers.{in_given, in_included};
ghost use Rattle.liquid_tags.specs.Includes as includes;
ghost use Rattle.liquid_tags.specs.Includes.{if_path, included_file, relative_file, folder_of, path_or_none};

use crate::expressions::expression;
use crate::file_names::name_text;
use crate::tools::Tools;
use filter_base::finished;
use liquid_grammar::{Include, Parameter};
use liquid_parse::{ParseError, SharedTemplate};
use liquid_values::{Excerpts, Place, Stop};
use markdown_grammar::Convert;
use read_record::{Key, Look, ask};
use site_base::{FaultKind, Hash, Memory, PathError, SiteFault, SitePath, Text, Value};
use std::alloc::Global;

/// An include's file and text, and the value of `include` in it where the tag has parameters.
#[derive(Drop)]
pub struct Included {
    pub file: SitePath,
    pub template: SharedTemplate,
    pub given: Option<Value>,
}

/// What `include` includes: the text in the folder of includes that has this name. IncludeMissing comes exactly where the name makes no
/// path or nothing is there; a fault of the text has its own file and line.
#[tactic(auto, using(read_record::proofs::CallLaws::binds))]
pub fn include<'a, 'c, X: Excerpts, C: Convert, L: Look>(
    alloc: Global,
    tools: &mut Tools<'c, X, C>,
    place: &Place<'a>,
    assigned: &Hash,
    tag: &Include,
    look: &mut L,
) -> Result<Included, Stop>
    ensures same { L.view look.new ≡ L.view look.old }
    ensures gives { Finds (run (L.view look.old) (L.trace look.old) (includes.include (X.excerpts place.now.levels) (place_of place.now) assigned.now tag.now)) (in_included result) (L.trace look.new) }
{
    let name = name_text(alloc, tools, place, assigned, tag.file.as_slice(), look)?;
    let wanted = included_file(alloc, name)?;
    find_included(
        alloc,
        tools,
        place,
        assigned,
        tag.params.as_slice(),
        wanted,
        look,
    )
}

/// What `include_relative` includes: the text at this name in the page's folder, with the same faults.
#[tactic(auto, using(read_record::proofs::CallLaws::binds))]
pub fn include_relative<'a, 'c, X: Excerpts, C: Convert, L: Look>(
    alloc: Global,
    tools: &mut Tools<'c, X, C>,
    place: &Place<'a>,
    assigned: &Hash,
    tag: &Include,
    look: &mut L,
) -> Result<Included, Stop>
    ensures same { L.view look.new ≡ L.view look.old }
    ensures gives { Finds (run (L.view look.old) (L.trace look.old) (includes.include_relative (X.excerpts place.now.levels) (place_of place.now) assigned.now tag.now)) (in_included result) (L.trace look.new) }
{
    let name = name_text(alloc, tools, place, assigned, tag.file.as_slice(), look)?;
    let wanted = relative_file(alloc, place.page.path.text(), name.as_str())?;
    find_included(
        alloc,
        tools,
        place,
        assigned,
        tag.params.as_slice(),
        wanted,
        look,
    )
}

/// Where an included file stands, and the key of its text.
#[derive(Drop)]
struct Wanted {
    file: SitePath,
    key: Key,
}

// In the folder of includes; a name that makes no path names no file.
#[tactic(auto, using(crate::proofs::IncludeLaws::wanted_some, crate::proofs::IncludeLaws::wanted_none))]
fn included_file(alloc: Global, name: Text) -> Result<Option<Wanted>, Memory>
    ensures { IfOk result (λ wanted. wanted ≡ if_path (included_file name)) }
{
    let mut path = String::new(alloc);
    path.push_str("_includes/")?;
    path.push_str(name.as_str())?;
    let file = read_path(alloc, path.as_str())?;
    match file {
        Some(file) => Ok(Some(Wanted {
            file,
            key: Key::Include(name),
        })),
        None => Ok(None),
    }
}

// In the folder of the page.
#[tactic(auto, using(crate::proofs::IncludeLaws::wanted_file, crate::proofs::IncludeLaws::wanted_none))]
fn relative_file(alloc: Global, page: &str, name: &str) -> Result<Option<Wanted>, Memory>
    ensures { IfOk result (λ wanted. wanted ≡ if_path (relative_file page.now name.now)) }
{
    let mut path = String::new(alloc);
    path.push_str(folder_of(page))?;
    path.push_str(name)?;
    let file = read_path(alloc, path.as_str())?;
    match file {
        Some(file) => {
            let key = Key::File(file.copy(alloc)?);
            Ok(Some(Wanted { file, key }))
        }
        None => Ok(None),
    }
}

// Up to the last slash.
fn folder_of(path: &str) -> &str
    ensures { result.now ≡ folder_of path.now }
{
    match path.rfind('/') {
        Some(slash) => &path[..=slash],
        None => "",
    }
}

fn read_path(alloc: Global, path: &str) -> Result<Option<SitePath>, Memory>
    ensures { IfOk result (λ made. made ≡ path_or_none path.now) }
{
    match SitePath::read(alloc, path) {
        Ok(path) => Ok(Some(path)),
        Err(PathError::Memory) => Err(Memory),
        Err(_) => Ok(None),
    }
}

#[tactic(auto, using(read_record::proofs::CallLaws::binds, crate::proofs::IncludeLaws::fault_stops))]
fn find_included<'a, 'c, X: Excerpts, C: Convert, L: Look>(
    alloc: Global,
    tools: &mut Tools<'c, X, C>,
    place: &Place<'a>,
    assigned: &Hash,
    params: &[Parameter],
    wanted: Option<Wanted>,
    look: &mut L,
) -> Result<Included, Stop>
    ensures same { L.view look.new ≡ L.view look.old }
    ensures gives { Finds (run (L.view look.old) (L.trace look.old) (includes.wanted (X.excerpts place.now.levels) (place_of place.now) assigned.now params.now wanted)) (in_included result) (L.trace look.new) }
{
    match wanted {
        Some(wanted) => {
            let text = ask(alloc, &wanted.key, look)?;
            included_text(
                alloc,
                tools,
                place,
                assigned,
                params,
                wanted.file,
                text,
                look,
            )
        }
        None => Err(place.fault(alloc, FaultKind::IncludeMissing)),
    }
}

#[tactic(auto, using(read_record::proofs::CallLaws::binds, crate::proofs::IncludeLaws::fault_stops))]
fn included_text<'a, 'c, X: Excerpts, C: Convert, L: Look>(
    alloc: Global,
    tools: &mut Tools<'c, X, C>,
    place: &Place<'a>,
    assigned: &Hash,
    params: &[Parameter],
    file: SitePath,
    text: Value,
    look: &mut L,
) -> Result<Included, Stop>
    ensures same { L.view look.new ≡ L.view look.old }
    ensures gives { Finds (run (L.view look.old) (L.trace look.old) (includes.included_text (X.excerpts place.now.levels) (place_of place.now) assigned.now file params.now (plain text))) (in_included result) (L.trace look.new) }
{
    match text {
        Value::Text(text) => match tools.templates.template(alloc, &text) {
            Ok(template) => with_given(alloc, tools, place, assigned, params, file, template, look),
            Err(ParseError::Fault(line, kind)) => Err(Stop::Fault(SiteFault {
                path: file,
                line,
                kind,
            })),
            Err(ParseError::Memory) => Err(Stop::Memory),
        },
        _ => Err(place.fault(alloc, FaultKind::IncludeMissing)),
    }
}

// A template with the value of `include`.
#[tactic(auto, using(read_record::proofs::CallLaws::binds))]
fn with_given<'a, 'c, X: Excerpts, C: Convert, L: Look>(
    alloc: Global,
    tools: &mut Tools<'c, X, C>,
    place: &Place<'a>,
    assigned: &Hash,
    params: &[Parameter],
    file: SitePath,
    template: SharedTemplate,
    look: &mut L,
) -> Result<Included, Stop>
    ensures same { L.view look.new ≡ L.view look.old }
    ensures gives { Finds (run (L.view look.old) (L.trace look.old) (includes.included_tree (X.excerpts place.now.levels) (place_of place.now) assigned.now file params.now (Ok template))) (in_included result) (L.trace look.new) }
{
    let given = include_value(alloc, tools, place, assigned, params, look)?;
    Ok(Included {
        file,
        template,
        given,
    })
}

// The value of `include`, where the tag has parameters.
#[tactic(auto, using(read_record::proofs::CallLaws::binds))]
fn include_value<'a, 'c, X: Excerpts, C: Convert, L: Look>(
    alloc: Global,
    tools: &mut Tools<'c, X, C>,
    place: &Place<'a>,
    assigned: &Hash,
    params: &[Parameter],
    look: &mut L,
) -> Result<Option<Value>, Stop>
    ensures same { L.view look.new ≡ L.view look.old }
    ensures gives { Finds (run (L.view look.old) (L.trace look.old) (includes.include_value (X.excerpts place.now.levels) (place_of place.now) assigned.now params.now)) (in_given result) (L.trace look.new) }
{
    match params {
        [] => Ok(None),
        [_, ..] => some_given(alloc, tools, place, assigned, params, look),
    }
}

#[tactic(auto, using(read_record::proofs::CallLaws::binds))]
fn some_given<'a, 'c, X: Excerpts, C: Convert, L: Look>(
    alloc: Global,
    tools: &mut Tools<'c, X, C>,
    place: &Place<'a>,
    assigned: &Hash,
    params: &[Parameter],
    look: &mut L,
) -> Result<Option<Value>, Stop>
    ensures same { L.view look.new ≡ L.view look.old }
    ensures gives { Finds (run (L.view look.old) (L.trace look.old) (includes.some_given (X.excerpts place.now.levels) (place_of place.now) assigned.now params.now)) (in_given result) (L.trace look.new) }
{
    let value = given_value(alloc, tools, place, assigned, params, look)?;
    Ok(Some(value))
}

#[tactic(auto, using(liquid_values::proofs::PlaceLaws::settles))]
fn given_value<'a, 'c, X: Excerpts, C: Convert, L: Look>(
    alloc: Global,
    tools: &mut Tools<'c, X, C>,
    place: &Place<'a>,
    assigned: &Hash,
    params: &[Parameter],
    look: &mut L,
) -> Result<Value, Stop>
    ensures same { L.view look.new ≡ L.view look.old }
    ensures gives { Finds (run (L.view look.old) (L.trace look.old) (includes.given_value (X.excerpts place.now.levels) (place_of place.now) assigned.now params.now)) (in_plain result) (L.trace look.new) }
{
    let made = parameters(alloc, tools, place, assigned, params, look)?;
    // An include that hands on `include` would else copy all that it was given.
    let shared = made.into_shared()?;
    fitted(alloc, place, Value::Hash(shared))
}

// A value that was made, where it nests no deeper than one may.
#[tactic(auto, using(crate::proofs::IncludeLaws::fitted_known, crate::proofs::IncludeLaws::fitted_found))]
fn fitted<'a>(alloc: Global, place: &Place<'a>, value: Value) -> Result<Value, Stop>
    ensures { FoundAt (place_of place.now) (fits (plain value)) (in_plain result) }
{
    let answer = finished(Ok(value));
    place.answered(alloc, answer)
}

// The parameters, of which a later one with the same name counts.
fn parameters<'a, 'c, X: Excerpts, C: Convert, L: Look>(
    alloc: Global,
    tools: &mut Tools<'c, X, C>,
    place: &Place<'a>,
    assigned: &Hash,
    params: &[Parameter],
    look: &mut L,
) -> Result<Hash, Stop>
    ensures same { L.view look.new ≡ L.view look.old }
    ensures gives { Finds (run (L.view look.old) (L.trace look.old) (includes.parameters (X.excerpts place.now.levels) (place_of place.now) assigned.now no_pairs params.now)) result (L.trace look.new) }
{
    let mut made = Hash::new(alloc);
    for param in params {
        let value = expression(alloc, tools, place, assigned, &param.value, look)?;
        made.set(param.name.share(alloc)?, value)?;
    }
    Ok(made)
}
