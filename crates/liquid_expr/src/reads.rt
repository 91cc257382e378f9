// Expressions, conditions, parameters and what else stands in tags, as whole texts.
ghost use Rattle.liquid_grammar.specs.Expressions.{read_expression};
ghost use Rattle.liquid_grammar.specs.Conditions.{read_condition, read_parameters};
ghost use Rattle.liquid_grammar.specs.Tags.{read_nothing, read_name, read_assign, read_values, read_cycle, read_loop};
ghost use Rattle.liquid_expr.specs.Readings.{GivesRead};

use crate::looping::{ForLoop, RowLoop};
use crate::reading::read_whole;
use crate::stop::ReadExprError;
use crate::tag::{Name, Nothing, Values};
use liquid_grammar::{Assign, Condition, Cycle, Expr, Loop, LoopKind, Operand, Params};
use site_base::{Sequence, Text};
use std::alloc::Global;

/// The expression that a text is: an operand, and filters behind bars.
pub fn read_expr(alloc: Global, text: &str) -> Result<Expr, ReadExprError>
    ensures { GivesRead result (read_expression text.now) }
{
    read_whole::<Expr>(alloc, text)
}

/// The condition that a text is: tests joined by `and` and `or`, which are read from the right.
pub fn read_condition(alloc: Global, text: &str) -> Result<Condition, ReadExprError>
    ensures { GivesRead result (read_condition text.now) }
{
    read_whole::<Condition>(alloc, text)
}

/// The parameters that a text is, each `name=expression`. The empty text has none.
pub fn read_params(alloc: Global, text: &str) -> Result<Params, ReadExprError>
    ensures { GivesRead result (read_parameters text.now) }
{
    read_whole::<Params>(alloc, text)
}

/// Sees that a text is white space alone, as it stands in a tag that is its name alone.
pub fn read_nothing(alloc: Global, text: &str) -> Result<(), ReadExprError>
    ensures { GivesRead result (read_nothing text.now) }
{
    read_whole::<Nothing>(alloc, text)
}

/// The name of a variable that a text is; the words of literals, `and`, `or` and `contains` are none.
pub fn read_name(alloc: Global, text: &str) -> Result<Text, ReadExprError>
    ensures { GivesRead result (read_name text.now) }
{
    read_whole::<Name>(alloc, text)
}

/// What stands in an `assign`: `name = e`.
pub fn read_assign(alloc: Global, text: &str) -> Result<Assign, ReadExprError>
    ensures { GivesRead result (read_assign text.now) }
{
    read_whole::<Assign>(alloc, text)
}

/// What stands in a `when`: values between commas and `or`.
pub fn read_values(alloc: Global, text: &str) -> Result<Sequence<Operand>, ReadExprError>
    ensures { GivesRead result (read_values text.now) }
{
    read_whole::<Values>(alloc, text)
}

/// What stands in a `cycle`: values between commas, perhaps behind a group and a colon.
pub fn read_cycle(alloc: Global, text: &str) -> Result<Cycle, ReadExprError>
    ensures { GivesRead result (read_cycle text.now) }
{
    read_whole::<Cycle>(alloc, text)
}

/// What stands in a `for` or a `tablerow`: `name in e`, and then each at most once, in any order, `limit:e`, `offset:e`, and
/// in a `for` `reversed`, in a `tablerow` `cols:e`.
pub fn read_loop(alloc: Global, kind: LoopKind, text: &str) -> Result<Loop, ReadExprError>
    ensures { GivesRead result (read_loop kind text.now) }
{
    match kind {
        LoopKind::For => read_whole::<ForLoop>(alloc, text),
        LoopKind::TableRow => read_whole::<RowLoop>(alloc, text),
    }
}
