// What the content of a line says.
ghost use Rattle.std.specs.Prelude.{◌≡◌, IfOk};
ghost use Rattle.site_script.specs.Script.{put_of, put_form, delete_form, time_form, long_form, form_of, head_of};
ghost use Rattle.site_script.specs.Reading.{IsPathOf};

use crate::ScriptKind;
use crate::number::read_number;
use site_base::{LAST_MOMENT, MOST_BYTES, Memory, PathError, SitePath};
use std::alloc::Global;

// The most bytes of a line's content.
const MOST_LINE_BYTES: usize = 2048;

/// What the content of a line says; the bytes of a put follow it.
#[derive(Drop)]
pub enum Head {
    Scan,
    Build,
    Links,
    End,
    Put(SitePath, u64),
    Delete(SitePath),
    Time(i64),
    Bad(ScriptKind),
}

/// Reads what the content of a line says; it fails only for want of memory.
pub(crate) fn read_head(alloc: Global, content: &[u8]) -> Result<Head, Memory>
    ensures { IfOk result (λ head. head ≡ head_of content.now) }
{
    if content.len() > MOST_LINE_BYTES {
        return Ok(Head::Bad(ScriptKind::LongLine));
    }
    match str::from_utf8(content) {
        Ok(text) => read_form(alloc, text),
        Err(_) => Ok(Head::Bad(ScriptKind::NotText)),
    }
}

fn read_form(alloc: Global, text: &str) -> Result<Head, Memory>
    ensures { IfOk result (λ head. head ≡ form_of text.now) }
{
    match text {
        "scan" => Ok(Head::Scan),
        "build" => Ok(Head::Build),
        "links" => Ok(Head::Links),
        "end" => Ok(Head::End),
        _ => read_long_form(alloc, text),
    }
}

fn read_long_form(alloc: Global, text: &str) -> Result<Head, Memory>
    ensures { IfOk result (λ head. head ≡ long_form text.now) }
{
    if let Some(rest) = text.strip_prefix("put ") {
        return read_put(alloc, rest);
    }
    if let Some(path) = text.strip_prefix("delete ") {
        return read_delete(alloc, path);
    }
    if let Some(seconds) = text.strip_prefix("time ") {
        return Ok(read_time(seconds));
    }
    Ok(Head::Bad(ScriptKind::Unknown))
}

fn read_put(alloc: Global, rest: &str) -> Result<Head, Memory>
    ensures { IfOk result (λ head. head ≡ put_form rest.now) }
{
    match rest.rsplit_once(' ') {
        Some((path, count)) => read_put_of(alloc, path, count),
        None => Ok(Head::Bad(ScriptKind::Unknown)),
    }
}

fn read_put_of(alloc: Global, path: &str, count: &str) -> Result<Head, Memory>
    ensures { IfOk result (λ head. head ≡ put_of path.now count.now) }
{
    let Some(path) = read_path(alloc, path)? else {
        return Ok(Head::Bad(ScriptKind::Path));
    };
    match read_number(count, MOST_BYTES as u64) {
        Some(count) => Ok(Head::Put(path, count)),
        None => Ok(Head::Bad(ScriptKind::Length)),
    }
}

fn read_delete(alloc: Global, path: &str) -> Result<Head, Memory>
    ensures { IfOk result (λ head. head ≡ delete_form path.now) }
{
    match read_path(alloc, path)? {
        Some(path) => Ok(Head::Delete(path)),
        None => Ok(Head::Bad(ScriptKind::Path)),
    }
}

fn read_time(seconds: &str) -> Head
    ensures { result ≡ time_form seconds.now }
{
    match read_number(seconds, LAST_MOMENT as u64) {
        Some(seconds) => Head::Time(seconds as i64),
        None => Head::Bad(ScriptKind::Seconds),
    }
}

// None where the text is no path.
fn read_path(alloc: Global, text: &str) -> Result<Option<SitePath>, Memory>
    ensures { IfOk result (λ path. IsPathOf text.now path) }
{
    match SitePath::read(alloc, text) {
        Ok(path) => Ok(Some(path)),
        Err(PathError::Memory) => Err(Memory),
        Err(_) => Ok(None),
    }
}
