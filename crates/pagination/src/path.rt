// The path of a page.
ghost use Rattle.std.specs.Prelude.{◌≡◌, ◌++◌, IfOk, OnOk, flat_map};
ghost use Rattle.std.specs.List.{slice_split};
ghost use Rattle.std.specs.String.{string_bytes};
ghost use Rattle.pagination.specs.Pages.{is_colon, numbered, filled, page_path};

use site_base::{Memory, Text};
use std::alloc::{AllocError, Global};

/// The path of the page of this number: the pattern with the number in place of each `:num`, and with `/` in front
/// where it is missing.
pub fn page_path(alloc: Global, pattern: &str, number: u32) -> Result<Text, Memory>
    ensures { IfOk result (λ path. path ≡ page_path pattern.now number) }
{
    match path_text(alloc, pattern, number) {
        Ok(path) => Text::from_string(path),
        Err(_) => Err(Memory),
    }
}

fn path_text(alloc: Global, pattern: &str, number: u32) -> Result<String, AllocError>
    ensures { IfOk result (λ path. string_bytes path ≡ page_path pattern.now number) }
{
    let digits = format!(in alloc; "{number}")?;
    let mut path = String::new(alloc);
    if !pattern.starts_with('/') {
        path.push('/')?;
    }
    push_filled(&mut path, pattern, digits.as_str())?;
    Ok(path)
}

// Adds the pattern with the digits in place of each `:num`.
fn push_filled(path: &mut String, pattern: &str, digits: &str) -> Result<(), AllocError>
    ensures { OnOk result (string_bytes path.new ≡ string_bytes path.old ++ filled digits.now pattern.now) }
{
    match pattern.split_once(':') {
        None => path.push_str(pattern),
        Some((start, rest)) => {
            path.push_str(start)?;
            push_parts(path, rest, digits)
        }
    }
}

// Adds what stands for the parts of a pattern behind its first colon.
fn push_parts(path: &mut String, rest: &str, digits: &str) -> Result<(), AllocError>
    ensures { OnOk result (string_bytes path.new
        ≡ string_bytes path.old ++ flat_map (numbered digits.now) (slice_split is_colon rest.now)) }
{
    for part in rest.split(':') {
        push_numbered(path, part, digits)?;
    }
    Ok(())
}

fn push_numbered(path: &mut String, part: &str, digits: &str) -> Result<(), AllocError>
    ensures { OnOk result (string_bytes path.new ≡ string_bytes path.old ++ numbered digits.now part.now) }
{
    if part.starts_with("num") {
        path.push_str(digits)?;
        path.push_str(&part[3..])
    } else {
        path.push(':')?;
        path.push_str(part)
    }
}
