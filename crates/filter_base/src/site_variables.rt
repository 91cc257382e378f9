// Variables of the site.
ghost use Rattle.std.specs.Prelude.{◌≡◌};
ghost use Rattle.read_record.specs.Queries.{Ask, Give, run};
ghost use Rattle.filter_base.specs.Answers.{Finds, in_plain};

use crate::stop::Stop;
use read_record::{Key, Look, ask};
use site_base::{Text, Value};
use std::alloc::Global;

/// A variable of the site.
pub fn site_variable<L: Look>(alloc: Global, name: &str, look: &mut L) -> Result<Value, Stop>
    ensures same { L.view look.new ≡ L.view look.old }
    ensures gives { Finds (run (L.view look.old) (L.trace look.old) (Ask (Key.SiteVar name.now) Give)) (in_plain result) (L.trace look.new) }
{
    let key = Key::SiteVar(Text::copy(alloc, name)?);
    ask(alloc, &key, look)
}
