// The blocks that choose one of their parts: `if`, `unless`, `case`.
ghost use Rattle.std.specs.Prelude.{◌≡◌};
ghost use Rattle.site_base.specs.View.{plain};
ghost use Rattle.read_record.specs.Queries.{run};
ghost use Rattle.read_record.specs.Answers.{Finds};
ghost use Rattle.liquid_values.specs.Standing.{place_of};
ghost use Rattle.liquid_tags.specs.Branches as branches;
ghost use Rattle.liquid_tags.specs.Branches.{chosen, equals_one, fails_test, takes_test, takes_value};

use crate::conditions::{condition, is_same};
use crate::expressions::case_value;
use crate::nodes::{First, Nodes};
use crate::tools::Tools;
use liquid_grammar::{Block, Operand, Part};
use liquid_values::{Excerpts, Place, Stop, operand};
use markdown_grammar::Convert;
use read_record::Look;
use site_base::{Hash, Value};
use std::alloc::Global;

/// The nodes of the part that `if`, `unless` or `case` takes: the first whose test holds, or fails in the first part of an `unless`,
/// or that has the value of the `case`, or the last. No more tests and values are evaluated than are needed, and all that is compared may
/// be undefined, but for the arguments of filters.
///
/// It stops at the first fault, which has the line of the part.
#[tactic(auto, using(read_record::proofs::CallLaws::binds))]
pub fn branch<'a, 'c, 'n, X: Excerpts, C: Convert, L: Look>(
    alloc: Global,
    tools: &mut Tools<'c, X, C>,
    place: &Place<'a>,
    assigned: &Hash,
    block: &Block,
    parts: &Nodes<'n>,
    look: &mut L,
) -> Result<Option<Nodes<'n>>, Stop>
    ensures same { L.view look.new ≡ L.view look.old }
    ensures gives { Finds (run (L.view look.old) (L.trace look.old) (branches.branch (X.excerpts place.now.levels) (place_of place.now) assigned.now block.now parts.now)) result (L.trace look.new) }
{
    let free = place.untested();
    match block {
        Block::If => if_part(alloc, &mut tools.excerpts, &free, assigned, parts, look),
        Block::Unless => unless_part(alloc, &mut tools.excerpts, &free, assigned, parts, look),
        Block::Case(expr) => {
            let value = case_value(alloc, tools, place, assigned, expr.get(), look)?;
            case_part(
                alloc,
                &mut tools.excerpts,
                &free,
                assigned,
                &value,
                parts,
                look,
            )
        }
        Block::For(_) => Ok(None),
        Block::TableRow(_) => Ok(None),
        Block::Capture(_) => Ok(None),
        Block::Highlight(_) => Ok(None),
    }
}

// The first part whose test holds, or that is the last.
#[tactic(auto, using(crate::proofs::BranchLaws::choosing))]
fn if_part<'a, 'n, X: Excerpts, L: Look>(
    alloc: Global,
    excerpts: &mut X,
    place: &Place<'a>,
    assigned: &Hash,
    parts: &Nodes<'n>,
    look: &mut L,
) -> Result<Option<Nodes<'n>>, Stop>
    ensures same { L.view look.new ≡ L.view look.old }
    ensures gives { Finds (run (L.view look.old) (L.trace look.old) (branches.if_part (X.excerpts place.now.levels) (place_of place.now) assigned.now parts.now)) result (L.trace look.new) }
{
    let mut rest = parts.again();
    while let Some(first) = rest.first_part() {
        let inside = place.at_line(first.line);
        let is_taken = takes_test(alloc, excerpts, &inside, assigned, first.part, look)?;
        if is_taken {
            return Ok(Some(first.body));
        }
        rest = first.behind;
    }
    Ok(None)
}

#[tactic(auto, using(read_record::proofs::CallLaws::binds))]
fn takes_test<'a, X: Excerpts, L: Look>(
    alloc: Global,
    excerpts: &mut X,
    place: &Place<'a>,
    assigned: &Hash,
    part: &Part,
    look: &mut L,
) -> Result<bool, Stop>
    ensures same { L.view look.new ≡ L.view look.old }
    ensures gives { Finds (run (L.view look.old) (L.trace look.old) (takes_test (X.excerpts place.now.levels) assigned.now (place_of place.now) part.now)) result (L.trace look.new) }
{
    match part {
        Part::Test(test) => condition(alloc, excerpts, place, assigned, test.get(), look),
        Part::Otherwise => Ok(true),
        Part::Body => Ok(false),
        Part::When(_) => Ok(false),
    }
}

// The first part where its test fails; all others are those of an `if`.
#[tactic(auto, using(read_record::proofs::CallLaws::binds))]
fn unless_part<'a, 'n, X: Excerpts, L: Look>(
    alloc: Global,
    excerpts: &mut X,
    place: &Place<'a>,
    assigned: &Hash,
    parts: &Nodes<'n>,
    look: &mut L,
) -> Result<Option<Nodes<'n>>, Stop>
    ensures same { L.view look.new ≡ L.view look.old }
    ensures gives { Finds (run (L.view look.old) (L.trace look.old) (branches.unless_part (X.excerpts place.now.levels) (place_of place.now) assigned.now parts.now)) result (L.trace look.new) }
{
    match parts.first() {
        First::Part(line, part, body, behind) => {
            let inside = place.at_line(line);
            let is_taken = fails_test(alloc, excerpts, &inside, assigned, part, look)?;
            if is_taken {
                return Ok(Some(body));
            }
            if_part(alloc, excerpts, place, assigned, &behind, look)
        }
        First::Leaf(_, _, behind) => if_part(alloc, excerpts, place, assigned, &behind, look),
        First::Block(_, _, _, behind) => if_part(alloc, excerpts, place, assigned, &behind, look),
        First::Nothing => Ok(None),
    }
}

#[tactic(auto, using(read_record::proofs::CallLaws::binds))]
fn fails_test<'a, X: Excerpts, L: Look>(
    alloc: Global,
    excerpts: &mut X,
    place: &Place<'a>,
    assigned: &Hash,
    part: &Part,
    look: &mut L,
) -> Result<bool, Stop>
    ensures same { L.view look.new ≡ L.view look.old }
    ensures gives { Finds (run (L.view look.old) (L.trace look.old) (fails_test (X.excerpts place.now.levels) assigned.now (place_of place.now) part.now)) result (L.trace look.new) }
{
    match part {
        Part::Test(test) => {
            let holds = condition(alloc, excerpts, place, assigned, test.get(), look)?;
            Ok(!holds)
        }
        Part::Otherwise => Ok(true),
        Part::Body => Ok(false),
        Part::When(_) => Ok(false),
    }
}

// The first part that has the value among its own, or that is the last.
#[tactic(auto, using(crate::proofs::BranchLaws::choosing))]
fn case_part<'a, 'n, X: Excerpts, L: Look>(
    alloc: Global,
    excerpts: &mut X,
    place: &Place<'a>,
    assigned: &Hash,
    value: &Value,
    parts: &Nodes<'n>,
    look: &mut L,
) -> Result<Option<Nodes<'n>>, Stop>
    ensures same { L.view look.new ≡ L.view look.old }
    ensures gives { Finds (run (L.view look.old) (L.trace look.old) (chosen (takes_value (X.excerpts place.now.levels) assigned.now (plain value.now)) (place_of place.now) parts.now)) result (L.trace look.new) }
{
    let mut rest = parts.again();
    while let Some(first) = rest.first_part() {
        let inside = place.at_line(first.line);
        let is_taken = takes_value(alloc, excerpts, &inside, assigned, value, first.part, look)?;
        if is_taken {
            return Ok(Some(first.body));
        }
        rest = first.behind;
    }
    Ok(None)
}

#[tactic(auto, using(read_record::proofs::CallLaws::binds))]
fn takes_value<'a, X: Excerpts, L: Look>(
    alloc: Global,
    excerpts: &mut X,
    place: &Place<'a>,
    assigned: &Hash,
    value: &Value,
    part: &Part,
    look: &mut L,
) -> Result<bool, Stop>
    ensures same { L.view look.new ≡ L.view look.old }
    ensures gives { Finds (run (L.view look.old) (L.trace look.old) (takes_value (X.excerpts place.now.levels) assigned.now (plain value.now) (place_of place.now) part.now)) result (L.trace look.new) }
{
    match part {
        Part::When(values) => equals_one(
            alloc,
            excerpts,
            place,
            assigned,
            value,
            values.get().as_slice(),
            look,
        ),
        Part::Otherwise => Ok(true),
        Part::Body => Ok(false),
        Part::Test(_) => Ok(false),
    }
}

// Whether the value is that of one of these, of which no more are evaluated than needed.
fn equals_one<'a, X: Excerpts, L: Look>(
    alloc: Global,
    excerpts: &mut X,
    place: &Place<'a>,
    assigned: &Hash,
    value: &Value,
    operands: &[Operand],
    look: &mut L,
) -> Result<bool, Stop>
    ensures same { L.view look.new ≡ L.view look.old }
    ensures gives { Finds (run (L.view look.old) (L.trace look.old) (equals_one (X.excerpts place.now.levels) (place_of place.now) assigned.now (plain value.now) operands.now)) result (L.trace look.new) }
{
    for each in operands {
        let other = operand(alloc, excerpts, place, assigned, each, look)?;
        if is_same(value, &other) {
            return Ok(true);
        }
    }
    Ok(false)
}
