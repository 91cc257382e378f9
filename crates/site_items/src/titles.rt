// Titles made of the names of files.
ghost use Rattle.std.specs.Prelude.{◌≡◌, ◌++◌, ◌∷◌, [], IfOk, OnOk};
ghost use Rattle.std.specs.List.{slice_split};
ghost use Rattle.std.specs.String.{string_bytes};
ghost use Rattle.site_items.specs.Titles.{capitalized, is_dash, spaced, title};

use crate::cuts::cut_at;
use site_base::{Memory, Text};
use std::alloc::{AllocError, Global};

/// The title that a name makes: its parts between `-`, each with an ASCII capital first and small ASCII letters behind it,
/// and a space between them.
pub fn title(alloc: Global, name: &str) -> Result<Text, Memory>
    ensures { IfOk result (λ made. made ≡ title name.now) }
{
    match title_text(alloc, name) {
        Ok(made) => Text::from_string(made),
        Err(_) => Err(Memory),
    }
}

fn title_text(alloc: Global, name: &str) -> Result<String, AllocError>
    ensures { IfOk result (λ made. string_bytes made ≡ title name.now) }
{
    let mut made = String::new(alloc);
    match cut_at(name, '-') {
        Some((first, rest)) => {
            push_capitalized(alloc, &mut made, first)?;
            push_parts(alloc, &mut made, rest)?;
        }
        None => push_capitalized(alloc, &mut made, name)?,
    }
    Ok(made)
}

// The parts behind the first `-`, each behind a space.
fn push_parts(alloc: Global, made: &mut String, parts: &str) -> Result<(), AllocError>
    ensures { OnOk result (string_bytes made.new ≡ string_bytes made.old ++ spaced (slice_split is_dash parts.now)) }
{
    let mut rest = parts;
    while let Some((part, behind)) = cut_at(rest, '-') {
        push_spaced(alloc, made, part)?;
        rest = behind;
    }
    push_spaced(alloc, made, rest)
}

fn push_spaced(alloc: Global, made: &mut String, part: &str) -> Result<(), AllocError>
    ensures { OnOk result (string_bytes made.new ≡ string_bytes made.old ++ spaced (part.now ∷ [])) }
{
    made.push(' ')?;
    push_capitalized(alloc, made, part)
}

fn push_capitalized(alloc: Global, made: &mut String, part: &str) -> Result<(), AllocError>
    ensures { OnOk result (string_bytes made.new ≡ string_bytes made.old ++ capitalized part.now) }
{
    match part.split_at_checked(1) {
        Some((first, rest)) => {
            made.push_str(first.to_ascii_uppercase(alloc)?.as_str())?;
            made.push_str(rest.to_ascii_lowercase(alloc)?.as_str())
        }
        // It is empty, or begins with a character that is no ASCII one.
        None => made.push_str(part.to_ascii_lowercase(alloc)?.as_str()),
    }
}
