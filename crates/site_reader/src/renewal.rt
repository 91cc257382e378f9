// Files that are kept, brought up to date.
ghost use Rattle.std.specs.Prelude.{◌≡◌, IfOk, IfSome, IsTrue, is_some};
ghost use Rattle.std.specs.FinMap as finite;
ghost use Rattle.front_yaml.specs.Front.{front};
ghost use Rattle.site_dates.specs.Offset.{IsOffset};
ghost use Rattle.site_files.specs.Places.{place_of};
ghost use Rattle.site_reader.specs.Kept.{has_variables, has_yaml, is_closed, is_parsed, is_same, parsed_under};
ghost use Rattle.site_reader.specs.Placements.{AreRead, AreUnder, IsPlaced, IsPlacedBy, IsSound, bytes_in};
ghost use Rattle.source_tree.specs.Limits.{CanBeHeld};

use crate::file_rules::FileRules;
use crate::kept_files::KeptFiles;
use crate::placing::kind_of;
use crate::site_file::SiteFile;
use front_yaml::Front;
use site_base::{Memory, SharedBytes, SitePath};
use site_files::Place;
use site_items::{FrontParser, KeptFile};
use source_tree::Held;
use std::alloc::Global;

/// The files of a reading, and how many of them were read anew.
#[derive(Drop)]
pub(crate) struct Renewed {
    pub(crate) kept: KeptFiles,
    pub(crate) parsed: u32,
}

/// The held files, of which those are shared that were kept with the same bytes. The variables of layouts and items are known.
pub(crate) fn renewed_files<P: FrontParser>(
    alloc: Global,
    old: &KeptFiles,
    held: &Held,
    rules: &FileRules,
    parser: &mut P,
) -> Result<Renewed, Memory>
    requires offset { IsOffset rules.now.rules.config.now.timezone }
    requires rules { AreRead rules.now }
    requires sound { IsSound old.now }
    ensures files { IfOk result (λ made. bytes_in made.kept.files ≡ held.now) }
    ensures under { IfOk result (λ made. AreUnder rules.entry.now.told made.kept) }
    ensures sound { IfOk result (λ made. IsSound made.kept) }
    ensures parsed { IfOk result (λ made. made.parsed ≡ parsed_under rules.now.rules.config.now rules.now.told.drafts (bytes_in old.now.files) held.now) }
    // What is held passes no limit.
    ensures within { CanBeHeld held.now }
{
    // Both configurations may be long, so they are compared here alone, and not for each file.
    let is_current = old.are_under(&rules.told);
    let mut files = Vec::with_capacity(alloc, held.len() as usize)?;
    let mut parsed = 0;
    for number in 0..held.len() {
        let (path, bytes) = held.shared_at(number);
        let made = renewed_file(alloc, old, is_current, rules, path, bytes, parser)?;
        files.push((path.copy(alloc)?, made.file))?;
        parsed += u32::from(made.is_parsed);
    }
    Ok(Renewed {
        kept: KeptFiles::of(&rules.told, files)?,
        parsed,
    })
}

// A file, and whether it was read anew.
#[derive(Drop)]
struct RenewedFile {
    file: SiteFile,
    is_parsed: bool,
}

fn renewed_file<P: FrontParser>(
    alloc: Global,
    old: &KeptFiles,
    is_current: bool,
    rules: &FileRules,
    path: &SitePath,
    bytes: &SharedBytes,
    parser: &mut P,
) -> Result<RenewedFile, Memory>
    requires offset { IsOffset rules.now.rules.config.now.timezone }
    requires rules { AreRead rules.now }
    requires sound { IsSound old.now }
    requires current { IsTrue is_current → AreUnder rules.now.told old.now }
    ensures bytes { IfOk result (λ made. made.file.file ≡ bytes.now) }
    ensures placed { IfOk result (λ made. IsPlacedBy rules.entry.now.told path.now made.file) }
    ensures parsed { IfOk result (λ made. made.is_parsed ≡ is_parsed rules.now.rules.config.now rules.now.told.drafts (bytes_in old.now.files) (path.now, bytes.now)) }
{
    match same_file(old, path, bytes) {
        Some(file) => Ok(RenewedFile {
            file: same_bytes(alloc, is_current, rules, path, file, parser)?,
            is_parsed: false,
        }),
        None => new_file(alloc, rules, path, bytes, parser),
    }
}

// A file whose bytes are as they were. Where the configuration is too, so is all that is known of the file.
fn same_bytes<P: FrontParser>(
    alloc: Global,
    is_current: bool,
    rules: &FileRules,
    path: &SitePath,
    file: &SiteFile,
    parser: &mut P,
) -> Result<SiteFile, Memory>
    requires offset { IsOffset rules.now.rules.config.now.timezone }
    requires rules { AreRead rules.now }
    requires placed { IsTrue is_current → IsPlacedBy rules.now.told path.now file.now }
    ensures bytes { IfOk result (λ made. made.file ≡ file.now.file) }
    ensures placed { IfOk result (IsPlacedBy rules.entry.now.told path.now) }
{
    if is_current {
        file.share(alloc)
    } else {
        let place = Place::of(rules.rules.config, rules.told.drafts, path.text());
        let file = with_variables(alloc, place, file.file.share(alloc)?, parser)?;
        SiteFile::of(alloc, rules, place, path, file)
    }
}

// The file that was kept, where it has these bytes.
fn same_file<'a>(old: &'a KeptFiles, path: &SitePath, bytes: &SharedBytes) -> Option<&'a SiteFile>
    requires { IsSound old.now }
    ensures bytes { IfSome result (λ file. file.now.file ≡ bytes.now) }
    ensures placed { IfSome result (λ file. IsPlaced old.now.told old.now.drafts path.now file.now) }
    ensures is { is_some result ≡ is_same (finite.get (bytes_in old.now.files) path.now) bytes.now }
{
    match old.get(path) {
        Some(file) => { if file.has(bytes) { Some(file) } else { None } }
        None => None,
    }
}

fn new_file<P: FrontParser>(
    alloc: Global,
    rules: &FileRules,
    path: &SitePath,
    bytes: &SharedBytes,
    parser: &mut P,
) -> Result<RenewedFile, Memory>
    requires offset { IsOffset rules.now.rules.config.now.timezone }
    requires rules { AreRead rules.now }
    ensures bytes { IfOk result (λ made. made.file.file ≡ bytes.now) }
    ensures placed { IfOk result (λ made. IsPlacedBy rules.entry.now.told path.now made.file) }
    ensures parsed { let place = place_of rules.now.rules.config.now rules.now.told.drafts path.now in
        IfOk result (λ made. made.is_parsed ≡ has_yaml place (front bytes.now)) }
{
    let place = Place::of(rules.rules.config, rules.told.drafts, path.text());
    let file = KeptFile::of(bytes.share()?);
    let is_parsed = has_yaml(place, file.content().front());
    let file = with_variables(alloc, place, file, parser)?;
    Ok(RenewedFile {
        file: SiteFile::of(alloc, rules, place, path, file)?,
        is_parsed,
    })
}

// The file, whose variables are known where it is a layout or an item.
fn with_variables<P: FrontParser>(
    alloc: Global,
    place: Place,
    file: KeptFile,
    parser: &mut P,
) -> Result<KeptFile, Memory>
    ensures { IfOk result (λ made. made ≡ file) }
{
    if has_variables(place, file.content().front()) {
        file.read(alloc, parser)
    } else {
        Ok(file)
    }
}

fn has_variables(place: Place, front: Front) -> bool
    ensures { result ≡ has_variables place front }
{
    match place {
        Place::Layout => true,
        _ => kind_of(place, front).is_some(),
    }
}

// Whether there is YAML to be read for a layout or an item.
fn has_yaml(place: Place, front: Front) -> bool
    ensures { result ≡ has_yaml place front }
{
    has_variables(place, front) && is_closed(front)
}

fn is_closed(front: Front) -> bool
    ensures { result ≡ is_closed front }
{
    match front {
        Front::Page { .. } => true,
        Front::Open | Front::Plain => false,
    }
}
