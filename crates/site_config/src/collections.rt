// The collections of a site, in their order.
ghost use Rattle.std.specs.Prelude.{◌≡◌, IfOk, OnOk, fold};
ghost use Rattle.site_base.specs.Plain.{list, hash};
ghost use Rattle.site_config.specs.Config.{collections_of, add, named};
ghost use Rattle.site_config.specs.Forms.{given};
ghost use Rattle.site_config.specs.Seen.{HasNames};

use crate::collection::Collection;
use site_base::{Hash, List, Memory, Sequence, Value};
use std::alloc::Global;
use std::collections::BTreeSet;

/// The collections that a configuration names, each name once, and the posts before them.
pub(crate) fn read_collections(
    alloc: Global,
    value: Option<&Value>,
) -> Result<Sequence<Collection>, Memory>
    ensures { IfOk result (λ made. made ≡ collections_of (given value.entry)) }
{
    let mut made = Sequence::new(alloc);
    made.push(Collection::posts(alloc, value)?)?;
    match value {
        Some(Value::List(names)) => with_names(alloc, made, names),
        Some(Value::Hash(pairs)) => with_pairs(alloc, made, pairs),
        _ => Ok(made),
    }
}

fn with_names(
    alloc: Global,
    mut made: Sequence<Collection>,
    names: &List,
) -> Result<Sequence<Collection>, Memory>
    ensures { IfOk result (λ all. all ≡ fold add made (named (list names.now))) }
{
    let mut seen = names_of(alloc, &made)?;
    for name in names.as_slice() {
        if let Value::Text(name) = name {
            add_named(alloc, &mut made, &mut seen, name.as_str(), None)?;
        }
    }
    Ok(made)
}

fn with_pairs(
    alloc: Global,
    mut made: Sequence<Collection>,
    pairs: &Hash,
) -> Result<Sequence<Collection>, Memory>
    ensures { IfOk result (λ all. all ≡ fold add made (named (hash pairs.now))) }
{
    let mut seen = names_of(alloc, &made)?;
    for pair in pairs.as_slice() {
        add_named(
            alloc,
            &mut made,
            &mut seen,
            pair.key.as_str(),
            Some(&pair.value),
        )?;
    }
    Ok(made)
}

// Adds a collection, unless its name is among those that are seen, which all have.
fn add_named(
    alloc: Global,
    made: &mut Sequence<Collection>,
    seen: &mut BTreeSet<String>,
    name: &str,
    value: Option<&Value>,
) -> Result<(), Memory>
    requires { HasNames seen.old made.old }
    ensures ok { OnOk result (made.new ≡ add made.old (name.now, given value.entry)) }
    ensures seen { OnOk result (HasNames seen.new made.new) }
{
    if seen.contains(name) {
        return Ok(());
    }
    made.push(Collection::read(alloc, name, value)?)?;
    let _ = seen.insert(String::from_str(alloc, name)?)?;
    Ok(())
}

// The names that there are.
fn names_of(alloc: Global, made: &Sequence<Collection>) -> Result<BTreeSet<String>, Memory>
    ensures { IfOk result (λ seen. HasNames seen made.now) }
{
    let mut seen = BTreeSet::new(alloc);
    for collection in made.as_slice() {
        let _ = seen.insert(String::from_str(alloc, collection.name.as_str())?)?;
    }
    Ok(seen)
}
