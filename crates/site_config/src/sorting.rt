// What the documents of a collection are sorted by.
ghost use Rattle.std.specs.Prelude.{◌≡◌, IfOk};
ghost use Rattle.site_config.specs.Config.{by_variable, sorting};
ghost use Rattle.site_config.specs.Forms.{given};

use crate::names::with_texts;
use crate::settings::setting;
use site_base::{Memory, Text, TextList, Value};
use std::alloc::Global;

/// What the documents of a collection are sorted by, before their dates and paths.
#[derive(Drop)]
pub enum Sorting {
    /// Nothing.
    ByDate,
    /// The variable of this name.
    By(Text),
    /// The places of their paths in this list. They are paths below the collection's folder.
    Listed(TextList),
}

impl Sorting {
    /// What the settings of a collection say. The list `order` wins over `sort_by`.
    pub(crate) fn read(alloc: Global, value: Option<&Value>) -> Result<Sorting, Memory>
        ensures { IfOk result (λ made. made ≡ sorting (given value.entry)) }
    {
        match setting("order", value) {
            Some(Value::List(paths)) => {
                Ok(Sorting::Listed(with_texts(alloc, TextList::new(alloc), paths)?))
            }
            _ => Sorting::by_variable(alloc, setting("sort_by", value)),
        }
    }

    fn by_variable(alloc: Global, name: Option<&Value>) -> Result<Sorting, Memory>
        ensures { IfOk result (λ made. made ≡ by_variable (given name.entry)) }
    {
        match name {
            Some(Value::Text(name)) => Ok(Sorting::By(Text::copy(alloc, name.as_str())?)),
            _ => Ok(Sorting::ByDate),
        }
    }
}
