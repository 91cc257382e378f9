// Expressions.
ghost use Rattle.std.specs.Prelude.{◌≡◌, [], Some, map};
ghost use Rattle.site_base.specs.View.{plain};
ghost use Rattle.read_record.specs.Queries.{run};
ghost use Rattle.read_record.specs.Answers.{Finds};
ghost use Rattle.jekyll_filters.specs.Table as jekyll;
ghost use Rattle.filter_base.specs.Answers.{limited};
ghost use Rattle.liquid_filters.specs.Table as liquid;
ghost use Rattle.liquid_values.specs.Answers.{in_plain};
ghost use Rattle.liquid_values.specs.Operands.{operand as operand_value};
ghost use Rattle.liquid_values.specs.Places.{placed};
ghost use Rattle.liquid_values.specs.Standing.{place_of};
ghost use Rattle.liquid_tags.specs.Expressions.{case_value, expression, filtered, filtered_by, has_default, input_place, meaning_named, valued, values_behind};
ghost use Rattle.liquid_tags.specs.Answers.{in_plains};

use crate::tools::Tools;
use liquid_grammar::{Expr, Extras, Filter, Operand};
use liquid_values::{Excerpts, Place, Stop, apply_liquid, operand, unknown_filter};
use markdown_grammar::Convert;
use read_record::Look;
use site_base::{Hash, Value};
use std::alloc::Global;

/// The value of an expression, where the tag stands at a place, by the variables that were assigned: that of its operand, which goes
/// through the filters one after another. An operand that goes to the filter `default` may be undefined. A name that no filter has
/// leaves the value as it is, and its arguments are not evaluated.
///
/// It stops at the first fault, which has the file and the line of the tag: those of operands, those of filters, and UnknownFilter
/// where the site is strict with filters and no filter has the name.
pub fn expression<'a, 'c, X: Excerpts, C: Convert, L: Look>(
    alloc: Global,
    tools: &mut Tools<'c, X, C>,
    place: &Place<'a>,
    assigned: &Hash,
    expr: &Expr,
    look: &mut L,
) -> Result<Value, Stop>
    ensures same { L.view look.new ≡ L.view look.old }
    ensures gives { Finds (run (L.view look.old) (L.trace look.old) (expression (X.excerpts place.now.levels) (place_of place.now) assigned.now expr.now)) (in_plain result) (L.trace look.new) }
{
    let may_be_undefined = has_default(expr.filters.as_slice());
    valued(alloc, tools, place, assigned, expr, may_be_undefined, look)
}

/// The value that a `case` compares: that of an expression whose operand may be undefined.
pub(crate) fn case_value<'a, 'c, X: Excerpts, C: Convert, L: Look>(
    alloc: Global,
    tools: &mut Tools<'c, X, C>,
    place: &Place<'a>,
    assigned: &Hash,
    expr: &Expr,
    look: &mut L,
) -> Result<Value, Stop>
    ensures same { L.view look.new ≡ L.view look.old }
    ensures gives { Finds (run (L.view look.old) (L.trace look.old) (case_value (X.excerpts place.now.levels) (place_of place.now) assigned.now expr.now)) (in_plain result) (L.trace look.new) }
{
    valued(alloc, tools, place, assigned, expr, true, look)
}

// Whether a value goes to the filter `default` first, which is there for what is undefined.
fn has_default(filters: &[Filter]) -> bool
    ensures { result ≡ has_default filters.now }
{
    match filters {
        [first, ..] => first.name.as_str() == "default",
        [] => false,
    }
}

#[tactic(auto, using(read_record::proofs::CallLaws::binds))]
fn valued<'a, 'c, X: Excerpts, C: Convert, L: Look>(
    alloc: Global,
    tools: &mut Tools<'c, X, C>,
    place: &Place<'a>,
    assigned: &Hash,
    expr: &Expr,
    may_be_undefined: bool,
    look: &mut L,
) -> Result<Value, Stop>
    ensures same { L.view look.new ≡ L.view look.old }
    ensures gives { Finds (run (L.view look.old) (L.trace look.old) (valued (X.excerpts place.now.levels) may_be_undefined (place_of place.now) assigned.now expr.now)) (in_plain result) (L.trace look.new) }
{
    let value = input(
        alloc,
        &mut tools.excerpts,
        place,
        assigned,
        &expr.operand,
        may_be_undefined,
        look,
    )?;
    filtered(
        alloc,
        tools,
        place,
        assigned,
        expr.filters.as_slice(),
        value,
        look,
    )
}

// The value of an operand that filters may follow.
fn input<'a, X: Excerpts, L: Look>(
    alloc: Global,
    excerpts: &mut X,
    place: &Place<'a>,
    assigned: &Hash,
    each: &Operand,
    may_be_undefined: bool,
    look: &mut L,
) -> Result<Value, Stop>
    ensures same { L.view look.new ≡ L.view look.old }
    ensures gives { Finds (run (L.view look.old) (L.trace look.old) (operand_value (X.excerpts place.now.levels) (input_place may_be_undefined (place_of place.now)) assigned.now each.now)) (in_plain result) (L.trace look.new) }
{
    if may_be_undefined {
        operand(alloc, excerpts, &place.untested(), assigned, each, look)
    } else {
        operand(alloc, excerpts, place, assigned, each, look)
    }
}

// What filters make of a value, one after another.
#[tactic(auto, using(read_record::proofs::CallLaws::binds))]
fn filtered<'a, 'c, X: Excerpts, C: Convert, L: Look>(
    alloc: Global,
    tools: &mut Tools<'c, X, C>,
    place: &Place<'a>,
    assigned: &Hash,
    filters: &[Filter],
    input: Value,
    look: &mut L,
) -> Result<Value, Stop>
    ensures same { L.view look.new ≡ L.view look.old }
    ensures gives { Finds (run (L.view look.old) (L.trace look.old) (filtered (X.excerpts place.now.levels) (place_of place.now) assigned.now filters.now (plain input))) (in_plain result) (L.trace look.new) }
{
    let mut value = input;
    for filter in filters {
        value = filtered_by(alloc, tools, place, assigned, filter, &value, look)?;
    }
    Ok(value)
}

// What one filter makes of a value. Jekyll's filters are asked first; where neither has the name, the arguments are not evaluated.
fn filtered_by<'a, 'c, X: Excerpts, C: Convert, L: Look>(
    alloc: Global,
    tools: &mut Tools<'c, X, C>,
    place: &Place<'a>,
    assigned: &Hash,
    filter: &Filter,
    input: &Value,
    look: &mut L,
) -> Result<Value, Stop>
    ensures same { L.view look.new ≡ L.view look.old }
    ensures gives { Finds (run (L.view look.old) (L.trace look.old) (filtered_by (X.excerpts place.now.levels) (place_of place.now) assigned.now (meaning_named filter.now.name) filter.now (plain input.now))) (in_plain result) (L.trace look.new) }
{
    if let Some(name) = jekyll_filters::FilterName::named(filter.name.as_str()) {
        return by_jekyll(alloc, tools, place, assigned, name, filter, input, look);
    }
    if let Some(name) = liquid_filters::FilterName::named(filter.name.as_str()) {
        return by_liquid(
            alloc,
            &mut tools.excerpts,
            place,
            assigned,
            name,
            filter,
            input,
            look,
        );
    }
    unknown_filter(alloc, place, input, look)
}

// What a filter of Jekyll makes of a value, by its arguments.
#[tactic(auto, using(read_record::proofs::CallLaws::binds))]
fn by_jekyll<'a, 'c, X: Excerpts, C: Convert, L: Look>(
    alloc: Global,
    tools: &mut Tools<'c, X, C>,
    place: &Place<'a>,
    assigned: &Hash,
    name: jekyll_filters::FilterName,
    filter: &Filter,
    input: &Value,
    look: &mut L,
) -> Result<Value, Stop>
    ensures same { L.view look.new ≡ L.view look.old }
    ensures gives { Finds (run (L.view look.old) (L.trace look.old) (filtered_by (X.excerpts place.now.levels) (place_of place.now) assigned.now (Some (jekyll.meaning_of name)) filter.now (plain input.now))) (in_plain result) (L.trace look.new) }
{
    let args = values(
        alloc,
        &mut tools.excerpts,
        place,
        assigned,
        filter.arguments.as_slice(),
        look,
    )?;
    apply_jekyll(
        alloc,
        place,
        name,
        input,
        args.as_slice(),
        look,
        tools.convert,
    )
}

// What a filter of Liquid makes of a value, by its arguments.
#[tactic(auto, using(read_record::proofs::CallLaws::binds))]
fn by_liquid<'a, X: Excerpts, L: Look>(
    alloc: Global,
    excerpts: &mut X,
    place: &Place<'a>,
    assigned: &Hash,
    name: liquid_filters::FilterName,
    filter: &Filter,
    input: &Value,
    look: &mut L,
) -> Result<Value, Stop>
    ensures same { L.view look.new ≡ L.view look.old }
    ensures gives { Finds (run (L.view look.old) (L.trace look.old) (filtered_by (X.excerpts place.now.levels) (place_of place.now) assigned.now (Some (liquid.meaning_of name)) filter.now (plain input.now))) (in_plain result) (L.trace look.new) }
{
    let args = values(
        alloc,
        excerpts,
        place,
        assigned,
        filter.arguments.as_slice(),
        look,
    )?;
    apply_liquid(alloc, place, name, input, args.as_slice(), look)
}

// The values of several operands, from left to right.
#[tactic(auto, using(read_record::proofs::CallLaws::binds))]
fn values<'a, X: Excerpts, L: Look>(
    alloc: Global,
    excerpts: &mut X,
    place: &Place<'a>,
    assigned: &Hash,
    operands: &[Operand],
    look: &mut L,
) -> Result<Vec<Value>, Stop>
    ensures same { L.view look.new ≡ L.view look.old }
    ensures gives { Finds (run (L.view look.old) (L.trace look.old) (values_behind (X.excerpts place.now.levels) (place_of place.now) assigned.now [] operands.now)) (in_plains result) (L.trace look.new) }
{
    let mut values = Vec::new(alloc);
    for each in operands {
        values.push(operand(alloc, excerpts, place, assigned, each, look)?)?;
    }
    Ok(values)
}

/// What a filter of Jekyll makes of a value, where its fault is the tag's.
#[tactic(auto, using(liquid_values::proofs::FilterLaws::answered_runs))]
pub(crate) fn apply_jekyll<'a, C: Convert, L: Look>(
    alloc: Global,
    place: &Place<'a>,
    filter: jekyll_filters::FilterName,
    input: &Value,
    args: &[Value],
    look: &mut L,
    convert: &C,
) -> Result<Value, Stop>
    ensures same { L.view look.new ≡ L.view look.old }
    ensures gives { Finds (run (L.view look.old) (L.trace look.old) (placed (place_of place.now) (limited (jekyll.meaning_of filter (plain input.now) (map plain args.now))))) (in_plain result) (L.trace look.new) }
{
    let answer = filter.apply(alloc, input, args, look, convert);
    place.answered(alloc, answer)
}
