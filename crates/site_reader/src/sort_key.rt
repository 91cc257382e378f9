// What sorts the documents of a collection before their dates.
ghost use Rattle.std.specs.Prelude.{◌≡◌, IfOk};
ghost use Rattle.site_config.specs.Forms.{given};
ghost use Rattle.site_reader.specs.Ranks.{value_key, variable_key};

use crate::name::Name;
use site_base::{Hash, Memory, Value};
use site_items::variable;
use std::alloc::Global;

/// Where a document stands in its collection, before its date decides. All have the same where nothing sorts them.
#[derive(PartialEq, Eq, PartialOrd, Ord, Drop)]
pub(crate) enum SortKey {
    /// The place of its path in a list.
    Place(u64),
    /// The number that its variable is.
    Number(i64),
    /// The text that its variable is, behind all numbers.
    Text(Name),
    /// Behind all others.
    Last,
}

impl SortKey {
    /// That of a document by its variable of this name. Neighbours are those in the order that is sought, so none is known yet.
    pub(crate) fn by_variable(alloc: Global, name: &str, vars: &Hash) -> Result<SortKey, Memory>
        ensures { IfOk result (λ key. key ≡ variable_key name.now vars.now) }
    {
        if name == "next" || name == "previous" {
            Ok(SortKey::Last)
        } else {
            SortKey::by_value(alloc, variable(vars, name))
        }
    }

    fn by_value(alloc: Global, value: Option<&Value>) -> Result<SortKey, Memory>
        ensures { IfOk result (λ key. key ≡ value_key (given value.entry)) }
    {
        match value {
            Some(Value::Int(number)) => Ok(SortKey::Number(*number)),
            Some(Value::Text(text)) => Ok(SortKey::Text(Name::copy(alloc, text.as_str())?)),
            _ => Ok(SortKey::Last),
        }
    }
}
