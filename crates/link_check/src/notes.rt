// The broken links of pages, for which each value is followed as seldom as it can be.
ghost use Rattle.std.specs.Prelude.{◌≡◌, ◌++◌, Bool, IfOk, List, OnOk, Option, Some, slice_index_or, slice_set, ℕ};
ghost use Rattle.link_check.specs.Answered as answered;
ghost use Rattle.link_check.specs.Links.{links};
ghost use Rattle.link_check.specs.Notes.{AreRight, IsRight, IsSpot, broken_of, note_by, note_of};
ghost use Rattle.link_check.specs.Numbers.{AreNumbered, IsNumbered, held_at};
ghost use Rattle.link_check.specs.declared.notes.Note.TheVariants.{Unknown};

use crate::answering::{Broken, BrokenList, Paths, is_broken, is_missing};
use crate::leading::folder_of;
use crate::page::Page;
use crate::value_table::ValueTable;
use site_base::{Memory, SitePath};
use site_text::is_one_of;
use std::alloc::Global;

/// What is known of a value: whether it is broken, and for which files that holds.
#[derive(Clone, Copy)]
pub(crate) enum Note<'a> {
    Unknown,
    Everywhere(bool),
    /// For the files of this folder.
    InFolder(&'a str, bool),
    /// It leads to the file in which it stands.
    OfFile,
}

/// A page whose links are gone through.
#[derive(Clone, Copy)]
struct Spot<'a> {
    path: &'a SitePath,
    folder: &'a str,
    // Whether nothing answers its own path.
    is_missing: bool,
}

/// The broken links of pages, whose values have these numbers, in the order of the pages, and of each page in their order.
pub(crate) fn broken_of<P: Paths>(
    alloc: Global,
    paths: &P,
    base: &str,
    values: &ValueTable,
    pages: &[(SitePath, Page)],
) -> Result<BrokenList, Memory>
    requires { AreNumbered values.now pages.now }
    ensures { IfOk result (λ list. list ≡ broken_of (P.paths paths.now) base.now pages.now) }
{
    let mut list = BrokenList::new(alloc);
    let mut notes = no_notes(alloc, values.len())?;
    for entry in pages {
        push_page(alloc, &mut list, &mut notes, paths, base, values, entry)?;
    }
    Ok(list)
}

// That so many values are not known.
fn no_notes<'a>(alloc: Global, count: usize) -> Result<Vec<Note<'a>>, Memory>
    ensures { IfOk result (λ notes. (n : ℕ) → slice_index_or notes.items n Unknown ≡ Unknown) }
{
    let mut notes = Vec::with_capacity(alloc, count)?;
    for _place in 0..count {
        notes.push(Note::Unknown)?;
    }
    Ok(notes)
}

// Adds the broken ones of a page's links, in their order.
fn push_page<'a, P: Paths>(
    alloc: Global,
    list: &mut BrokenList,
    notes: &mut Vec<Note<'a>>,
    paths: &P,
    base: &str,
    values: &ValueTable,
    entry: &'a (SitePath, Page),
) -> Result<(), Memory>
    requires numbered { IsNumbered values.now entry.now }
    requires right { AreRight (P.paths paths.now) base.now values.now notes.old.items }
    ensures list { OnOk result (list.new ≡ list.old ++ answered.broken_links (P.paths paths.now) entry.now.0 base.now (links entry.now.1.bytes)) }
    ensures right { AreRight (P.paths paths.now) base.now values.now notes.new.items }
{
    let spot = Spot {
        path: &entry.0,
        folder: folder_of(entry.0.text()),
        is_missing: is_missing(alloc, paths, &entry.0)?,
    };
    for number in &entry.1.links {
        push_told(alloc, list, notes, paths, base, values, spot, *number)?;
    }
    Ok(())
}

// Adds a link if it is broken.
fn push_told<'a, P: Paths>(
    alloc: Global,
    list: &mut BrokenList,
    notes: &mut Vec<Note<'a>>,
    paths: &P,
    base: &str,
    values: &ValueTable,
    spot: Spot<'a>,
    number: u32,
) -> Result<(), Memory>
    requires spot { IsSpot (P.paths paths.now) spot }
    requires right { AreRight (P.paths paths.now) base.now values.now notes.old.items }
    ensures list { (value : List ℕ) → held_at values.now number ≡ Some value → OnOk result (list.new ≡ list.old ++ answered.told (P.paths paths.now) spot.entry.path.now base.now value) }
    ensures right { AreRight (P.paths paths.now) base.now values.now notes.new.items }
{
    // Each number of a page has a text.
    let Some(value) = values.text(number) else {
        return Ok(());
    };
    let place = number as usize;
    let found = judge(
        alloc,
        paths,
        base,
        spot,
        value.as_str(),
        note_at(notes, place),
    )?;
    set_note(notes, place, found.note);
    if !found.is_broken {
        return Ok(());
    }
    list.push(Broken {
        from: spot.path.copy(alloc)?,
        value: value.share(alloc)?,
    })
}

fn note_at<'a>(notes: &[Note<'a>], place: usize) -> Note<'a>
    ensures { result ≡ slice_index_or notes.now place Unknown }
{
    match notes.get(place) {
        Some(note) => *note,
        None => Note::Unknown,
    }
}

fn set_note<'a>(notes: &mut Vec<Note<'a>>, place: usize, note: Note<'a>)
    ensures { notes.new.items ≡ slice_set notes.old.items place note.entry }
{
    if place < notes.len() {
        notes[place] = note;
    }
}

// Whether a value is broken, and what is known of it then.
#[derive(Clone, Copy)]
struct Found<'a> {
    is_broken: bool,
    note: Note<'a>,
}

// Judges a value by what is known of it, and follows it where that does not tell.
fn judge<'a, P: Paths>(
    alloc: Global,
    paths: &P,
    base: &str,
    spot: Spot<'a>,
    value: &str,
    note: Note<'a>,
) -> Result<Found<'a>, Memory>
    requires spot { IsSpot (P.paths paths.now) spot }
    requires right { IsRight (P.paths paths.now) base.now value.now note }
    ensures value { IfOk result (λ found. found.is_broken ≡ answered.is_broken (P.paths paths.now) spot.entry.path.now value.now base.now) }
    ensures right { IfOk result (λ found. IsRight (P.paths paths.now) base.now value.now found.note) }
{
    match note {
        Note::Everywhere(is_broken) => Ok(Found { is_broken, note }),
        Note::InFolder(folder, is_broken) if folder == spot.folder => Ok(Found { is_broken, note }),
        Note::OfFile => Ok(Found {
            is_broken: spot.is_missing,
            note,
        }),
        _ => follow(alloc, paths, base, spot, value),
    }
}

// Follows a value.
fn follow<'a, P: Paths>(
    alloc: Global,
    paths: &P,
    base: &str,
    spot: Spot<'a>,
    value: &str,
) -> Result<Found<'a>, Memory>
    ensures { IfOk result (λ found. (found.is_broken ≡ answered.is_broken (P.paths paths.now) spot.entry.path.now value.now base.now) × (found.note ≡ note_of value.now spot.entry.folder found.is_broken)) }
{
    let is_broken = is_broken(alloc, paths, spot.path, value, base)?;
    Ok(Found {
        is_broken,
        note: note_of(value.as_bytes(), spot.folder, is_broken),
    })
}

// How far it holds that a value is broken, or that it is not.
fn note_of<'a>(value: &[u8], folder: &'a str, is_broken: bool) -> Note<'a>
    ensures { result ≡ note_of value.now folder.entry is_broken }
{
    match value {
        [] => Note::OfFile,
        [first, ..] => note_by(*first, folder, is_broken),
    }
}

fn note_by<'a>(first: u8, folder: &'a str, is_broken: bool) -> Note<'a>
    ensures { result ≡ note_by first folder.entry is_broken }
{
    if first == b'/' {
        return Note::Everywhere(is_broken);
    }
    if is_one_of(b"?#", first) {
        return Note::OfFile;
    }
    Note::InFolder(folder, is_broken)
}
