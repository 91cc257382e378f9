// Values that a configuration gives to items by their path and type.
ghost use Rattle.std.specs.Prelude.{◌≡◌, ◌++◌, IfOk};
ghost use Rattle.site_base.specs.Plain.{list};
ghost use Rattle.site_config.specs.Config.{scopes_of};
ghost use Rattle.site_config.specs.Forms.{given};

use crate::scope::Scope;
use site_base::{List, Memory, Sequence, Value};
use std::alloc::Global;

/// The scopes of a list, in their order; none where there is no list.
pub(crate) fn read_scopes(alloc: Global, value: Option<&Value>) -> Result<Sequence<Scope>, Memory>
    ensures { IfOk result (λ made. made ≡ scopes_of (given value.entry)) }
{
    match value {
        Some(Value::List(values)) => scopes_in(alloc, values),
        _ => Ok(Sequence::new(alloc)),
    }
}

fn scopes_in(alloc: Global, values: &List) -> Result<Sequence<Scope>, Memory>
    ensures { IfOk result (λ made. made ≡ scopes_of (list values.now)) }
{
    let mut scopes = Sequence::new(alloc);
    for value in values.as_slice() {
        scopes.push(Scope::read(alloc, value)?)?;
    }
    Ok(scopes)
}
