// The configuration of a site.
ghost use Rattle.std.specs.Prelude.{◌≡◌, IfOk, MatchResult, Ok, Some, None};
ghost use Rattle.std.specs.FinMap as map;
ghost use Rattle.std.specs.Option.{option_copied};
ghost use Rattle.site_dates.specs.Offset.{IsOffset};
ghost use Rattle.site_reader.specs.Found.{IsFirst, in_file};
ghost use Rattle.site_reader.specs.Paginating.{HasSize};
ghost use Rattle.site_reader.specs.Placements.{Tells};
ghost use Rattle.site_reader.specs.Placing.{config_path};
ghost use Rattle.site_reader.specs.Sites.{IsConfig, config, config_in, text_config};

use crate::site_error::{SiteError, fault_at};
use crate::texts::as_text;
use crate::told::Told;
use site_base::{FaultKind, Memory, SitePath};
use site_config::{Config, ConfigError, read_config};
use source_tree::Held;
use std::alloc::Global;

/// The configuration of the held files.
pub(crate) fn config(alloc: Global, held: &Held) -> Result<Config, SiteError>
    ensures read { let found = config held.now in MatchResult result (λ made. found ≡ Ok made) (IsFirst found) }
    ensures offset { IfOk result (λ made. IsOffset made.timezone) }
    ensures size { IfOk result HasSize }
{
    let path = config_path(alloc)?;
    match held.get(&path) {
        Some(bytes) => config_in(alloc, &path, bytes),
        None => text_config(alloc, &path, None),
    }
}

/// What tells the configuration that was read of the held files.
pub(crate) fn told_of<'a>(
    alloc: Global,
    held: &'a Held,
    config: &Config,
    drafts: bool,
) -> Result<Told<'a>, Memory>
    requires { IsConfig held.now config.now }
    ensures told { IfOk result (λ told. Tells told config.now) }
    ensures drafts { IfOk result (λ told. told.drafts ≡ drafts) }
{
    let path = config_path(alloc)?;
    Ok(Told {
        bytes: held.get_shared(&path),
        drafts,
    })
}

/// The path of the configuration.
pub(crate) fn config_path(alloc: Global) -> Result<SitePath, Memory>
    ensures { IfOk result (λ path. path ≡ config_path) }
{
    match SitePath::read(alloc, "_config.yml") {
        Ok(path) => Ok(path),
        Err(_) => Err(Memory),
    }
}

fn config_in(alloc: Global, path: &SitePath, bytes: &[u8]) -> Result<Config, SiteError>
    ensures read { let found = in_file path.now (config_in (Some bytes.now)) in
        MatchResult result (λ made. found ≡ Ok made) (IsFirst found) }
    ensures offset { IfOk result (λ made. IsOffset made.timezone) }
    ensures size { IfOk result HasSize }
{
    match as_text(bytes) {
        Some(text) => text_config(alloc, path, Some(text)),
        None => Err(fault_at(alloc, path, 0, FaultKind::NotUtf8)),
    }
}

fn text_config(alloc: Global, path: &SitePath, text: Option<&str>) -> Result<Config, SiteError>
    ensures read { let found = in_file path.now (text_config (option_copied text.entry)) in
        MatchResult result (λ made. found ≡ Ok made) (IsFirst found) }
    ensures offset { IfOk result (λ made. IsOffset made.timezone) }
    ensures size { IfOk result HasSize }
{
    match read_config(alloc, text) {
        Ok(config) => Ok(config),
        Err(ConfigError::Yaml(fault)) => {
            Err(fault_at(alloc, path, fault.line, FaultKind::Yaml(fault.kind)))
        }
        Err(ConfigError::Key(_)) => Err(fault_at(alloc, path, 0, FaultKind::Config)),
        Err(ConfigError::Memory) => Err(SiteError::Memory),
    }
}
