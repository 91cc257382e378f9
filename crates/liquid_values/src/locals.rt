// The variables of the loops and includes around a tag.
ghost use Rattle.std.specs.Prelude.{◌≡◌};
ghost use Rattle.std.specs.Map.{lookup};
ghost use Rattle.std.specs.Option.{option_map, option_copied};
ghost use Rattle.std.specs.Str.{bytes_eq};
ghost use Rattle.liquid_values.specs.Standing.{bound_value, locals_of};

use site_base::Value;

/// Where a `for` stands.
#[derive(Clone, Copy)]
pub struct ForLoop<'a> {
    /// How many elements it has.
    pub len: u64,
    /// How many of them it has passed.
    pub passed: u64,
    /// The `for` around it.
    pub parent: Option<&'a ForLoop<'a>>,
}

/// Where a `tablerow` stands.
#[derive(Clone, Copy)]
pub struct RowLoop {
    pub len: u64,
    pub columns: u64,
    pub passed: u64,
}

/// What a variable of a loop or an include stands for.
#[derive(Clone, Copy)]
pub enum Bound<'a> {
    Value(&'a Value),
    ForLoop(&'a ForLoop<'a>),
    RowLoop(&'a RowLoop),
}

/// The variables of the loops and includes around, from the innermost.
#[derive(Clone, Copy)]
pub enum Locals<'a> {
    Nothing,
    Local {
        name: &'a str,
        bound: Bound<'a>,
        outer: &'a Locals<'a>,
    },
}

/// What a name stands for among them.
pub(crate) fn local<'a>(locals: &'a Locals<'a>, name: &str) -> Option<&'a Bound<'a>>
    ensures { option_map bound_value (option_copied result) ≡ lookup (bytes_eq name.now) (locals_of locals.now) }
{
    match locals {
        Locals::Nothing => None,
        Locals::Local {
            name: other,
            bound,
            outer,
        } => {
            if *other == name {
                Some(bound)
            } else {
                local(*outer, name)
            }
        }
    }
}
