// Values that a configuration gives to items.
ghost use Rattle.std.specs.Prelude.{◌≡◌, IfOk, OnOk, map};
ghost use Rattle.site_items.specs.Defaults.{by_strength, fits, is_for_kind, is_for_path, set_all, strength, variables};

use crate::kind::Kind;
use site_base::{Hash, Memory, copy};
use site_config::{Config, Scope};
use site_files::{covers, without_slash};
use std::alloc::Global;

/// The scopes in the order in which their values count: of two that fit, the later wins. The longer path is the later, then
/// the one with a type, then the one that stands later in the configuration.
pub fn by_strength<'a>(alloc: Global, scopes: &'a [Scope]) -> Result<Vec<&'a Scope>, Memory>
    ensures { IfOk result (λ ordered. map (λ s. s.now) ordered.items ≡ by_strength scopes.now) }
{
    let mut ordered = Vec::with_capacity(alloc, scopes.len())?;
    for scope in scopes {
        ordered.push(scope)?;
    }
    ordered.sort_by(|one, other| strength(one).cmp(&strength(other)))?;
    Ok(ordered)
}

// Two for each byte of the path, and one for a type.
fn strength(scope: &Scope) -> u128
    ensures { result ≡ strength scope.now }
{
    let path = without_slash(scope.path.as_str().as_bytes()).len() as u128;
    2 * path + u128::from(scope.kind.is_some())
}

/// The variables of an item of a kind at a path: its own, and below them what the scopes that fit give it, in their order.
pub fn variables(
    alloc: Global,
    config: &Config,
    ordered: &[&Scope],
    kind: Kind,
    path: &str,
    own: &Hash,
) -> Result<Hash, Memory>
    ensures { IfOk result (λ made. made ≡ variables config.now (map (λ s. s.now) ordered.now) kind path.now own.now) }
{
    let mut made = Hash::new(alloc);
    for scope in ordered {
        if fits(config, scope, kind, path) {
            set_shares(alloc, &mut made, &scope.values)?;
        }
    }
    set_shares(alloc, &mut made, own)?;
    Ok(made)
}

fn set_shares(alloc: Global, under: &mut Hash, values: &Hash) -> Result<(), Memory>
    ensures { OnOk result (under.new ≡ set_all values.now under.old) }
{
    for pair in values.as_slice() {
        under.set(pair.key.share(alloc)?, copy(alloc, &pair.value)?)?;
    }
    Ok(())
}

fn fits(config: &Config, scope: &Scope, kind: Kind, path: &str) -> bool
    ensures { result ≡ fits config.now kind path.now scope.now }
{
    is_for_path(scope, path) && is_for_kind(config, scope, kind)
}

fn is_for_path(scope: &Scope, path: &str) -> bool
    ensures { result ≡ is_for_path path.now scope.now }
{
    let place = without_slash(scope.path.as_str().as_bytes());
    place.is_empty() || covers(path.as_bytes(), place)
}

fn is_for_kind(config: &Config, scope: &Scope, kind: Kind) -> bool
    ensures { result ≡ is_for_kind config.now kind scope.now.kind }
{
    match &scope.kind {
        Some(type_name) => kind.has_type(config, type_name.as_str()),
        None => true,
    }
}
