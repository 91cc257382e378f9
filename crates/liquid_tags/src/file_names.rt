// The names that tags are given.
ghost use Rattle.std.specs.Prelude.{◌≡◌, []};
ghost use Rattle.read_record.specs.Queries.{run};
ghost use Rattle.read_record.specs.Answers.{Finds};
ghost use Rattle.liquid_values.specs.Standing.{place_of};
ghost use Rattle.liquid_tags.specs.FileNames.{expression_text, name_text, part_text};

use crate::expressions::expression;
use crate::tools::Tools;
use liquid_grammar::{Expr, NamePart};
use liquid_values::{Excerpts, Place, Stop};
use markdown_grammar::Convert;
use read_record::Look;
use site_base::{Hash, Text, value_text};
use std::alloc::Global;

/// The name that a tag is given: its texts, and what its outputs write. It stops where an output does.
pub fn name_text<'a, 'c, X: Excerpts, C: Convert, L: Look>(
    alloc: Global,
    tools: &mut Tools<'c, X, C>,
    place: &Place<'a>,
    assigned: &Hash,
    parts: &[NamePart],
    look: &mut L,
) -> Result<Text, Stop>
    ensures same { L.view look.new ≡ L.view look.old }
    ensures gives { Finds (run (L.view look.old) (L.trace look.old) (name_text (X.excerpts place.now.levels) (place_of place.now) assigned.now parts.now)) result (L.trace look.new) }
{
    let mut name = String::new(alloc);
    for part in parts {
        let text = part_text(alloc, tools, place, assigned, part, look)?;
        name.push_str(text.as_str())?;
    }
    Ok(Text::from_string(name)?)
}

fn part_text<'a, 'c, X: Excerpts, C: Convert, L: Look>(
    alloc: Global,
    tools: &mut Tools<'c, X, C>,
    place: &Place<'a>,
    assigned: &Hash,
    part: &NamePart,
    look: &mut L,
) -> Result<Text, Stop>
    ensures same { L.view look.new ≡ L.view look.old }
    ensures gives { Finds (run (L.view look.old) (L.trace look.old) (part_text (X.excerpts place.now.levels) (place_of place.now) assigned.now part.now)) result (L.trace look.new) }
{
    match part {
        NamePart::Text(text) => Ok(text.share(alloc)?),
        NamePart::Output(expr) => expression_text(alloc, tools, place, assigned, expr, look),
    }
}

#[tactic(auto, using(read_record::proofs::CallLaws::binds))]
fn expression_text<'a, 'c, X: Excerpts, C: Convert, L: Look>(
    alloc: Global,
    tools: &mut Tools<'c, X, C>,
    place: &Place<'a>,
    assigned: &Hash,
    expr: &Expr,
    look: &mut L,
) -> Result<Text, Stop>
    ensures same { L.view look.new ≡ L.view look.old }
    ensures gives { Finds (run (L.view look.old) (L.trace look.old) (expression_text (X.excerpts place.now.levels) (place_of place.now) assigned.now expr.now)) result (L.trace look.new) }
{
    let value = expression(alloc, tools, place, assigned, expr, look)?;
    Ok(value_text(alloc, &value)?)
}
