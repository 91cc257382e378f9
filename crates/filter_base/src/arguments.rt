// How many arguments a filter takes: a wrong number of them is the fault FilterArgument.
ghost use Rattle.std.specs.Prelude.{◌≡◌, map};
ghost use Rattle.site_base.specs.View.{plain};
ghost use Rattle.filter_base.specs.Answers.{seen, seen_if, seen_one_or_two, seen_two, seen_up_to_two};
ghost use Rattle.filter_base.specs.Arguments.{no_more, one, one_or_none, one_or_two, two, up_to_two};

use site_base::{FaultKind, Value};

/// No argument.
pub fn no_more(args: &[Value]) -> Result<(), FaultKind>
    ensures { result ≡ no_more (map plain args.now) }
{
    match args {
        [] => Ok(()),
        _ => Err(FaultKind::FilterArgument),
    }
}

/// The one argument.
pub fn one(args: &[Value]) -> Result<&Value, FaultKind>
    ensures { seen result ≡ one (map plain args.now) }
{
    match args {
        [only] => Ok(only),
        _ => Err(FaultKind::FilterArgument),
    }
}

/// The one argument, or that there is none.
pub fn one_or_none(args: &[Value]) -> Result<Option<&Value>, FaultKind>
    ensures { seen_if result ≡ one_or_none (map plain args.now) }
{
    match args {
        [] => Ok(None),
        [only] => Ok(Some(only)),
        _ => Err(FaultKind::FilterArgument),
    }
}

/// The two arguments.
pub fn two(args: &[Value]) -> Result<(&Value, &Value), FaultKind>
    ensures { seen_two result ≡ two (map plain args.now) }
{
    match args {
        [first, second] => Ok((first, second)),
        _ => Err(FaultKind::FilterArgument),
    }
}

/// The one argument, or the two.
pub fn one_or_two(args: &[Value]) -> Result<(&Value, Option<&Value>), FaultKind>
    ensures { seen_one_or_two result ≡ one_or_two (map plain args.now) }
{
    match args {
        [only] => Ok((only, None)),
        [first, second] => Ok((first, Some(second))),
        _ => Err(FaultKind::FilterArgument),
    }
}

/// The arguments, of which there are two at most.
pub fn up_to_two(args: &[Value]) -> Result<(Option<&Value>, Option<&Value>), FaultKind>
    ensures { seen_up_to_two result ≡ up_to_two (map plain args.now) }
{
    match args {
        [] => Ok((None, None)),
        [only] => Ok((Some(only), None)),
        [first, second] => Ok((Some(first), Some(second))),
        _ => Err(FaultKind::FilterArgument),
    }
}
