// `forloop` and `tablerowloop` as values.
ghost use Rattle.std.specs.Prelude.{◌≡◌, IfOk, OnOk};
ghost use Rattle.std.specs.Option.{option_map};
ghost use Rattle.std.specs.Str.{bytes_eq};
ghost use Rattle.site_base.specs.Plain.{onto_pairs, pair, no_pairs};
ghost use Rattle.site_base.specs.View.{plain};
ghost use Rattle.liquid_values.specs.LoopValues.{counts, row_of, column_of, ends_row};
ghost use Rattle.liquid_values.specs.Members.{count_value, member_value};
ghost use Rattle.liquid_values.specs.declared.locals.ForLoop.{out-ForLoop};
ghost use Rattle.liquid_values.specs.Standing.{around_value, loop_value, row_value};

use crate::locals::{ForLoop, RowLoop};
use crate::members::member_value;
use site_base::{Hash, Memory, Text, Value};
use std::alloc::Global;

/// A count as a value; one that no `i64` holds is nil.
pub fn count_value(count: u128) -> Value
    ensures { plain result ≡ count_value count }
{
    match i64::try_from(count) {
        Ok(count) => Value::Int(count),
        Err(_) => Value::Nil,
    }
}

/// `forloop`.
pub(crate) fn for_loop_value(alloc: Global, turn: &ForLoop) -> Result<Value, Memory>
    ensures { IfOk result (λ value. plain value ≡ loop_value turn.now) }
{
    let mut hash = counts(alloc, turn.len, turn.passed)?;
    let parent = match turn.parent {
        Some(parent) => for_loop_value(alloc, parent)?,
        None => Value::Nil,
    };
    push(alloc, &mut hash, "parentloop", parent)?;
    Ok(Value::Hash(hash))
}

/// `tablerowloop`.
pub(crate) fn row_loop_value(alloc: Global, turn: &RowLoop) -> Result<Value, Memory>
    ensures { IfOk result (λ value. plain value ≡ row_value turn.now) }
{
    let row = u128::from(row_of(turn.columns, turn.passed));
    let column = u128::from(column_of(turn.columns, turn.passed));
    let ends = ends_row(turn.columns, turn.passed);
    let mut hash = counts(alloc, turn.len, turn.passed)?;
    push(alloc, &mut hash, "row", count_value(row + 1))?;
    push(alloc, &mut hash, "col", count_value(column + 1))?;
    push(alloc, &mut hash, "col0", count_value(column))?;
    push(alloc, &mut hash, "col_first", Value::Bool(column == 0))?;
    push(alloc, &mut hash, "col_last", Value::Bool(ends))?;
    Ok(Value::Hash(hash))
}

/// A member of `forloop`, where it has one of the name.
pub(crate) fn for_loop_member(
    alloc: Global,
    turn: &ForLoop,
    name: &str,
) -> Result<Option<Value>, Memory>
    ensures { IfOk result (λ value. option_map plain value ≡ member_value name.now (loop_value turn.now)) }
{
    let (all, before) = (u128::from(turn.len), u128::from(turn.passed));
    let value = match name {
        "length" => count_value(all),
        "index" => count_value(before + 1),
        "index0" => count_value(before),
        "rindex" => count_value(all.saturating_sub(before)),
        "rindex0" => count_value(all.saturating_sub(before).saturating_sub(1)),
        "first" => Value::Bool(before == 0),
        "last" => Value::Bool(before + 1 == all),
        "parentloop" => parent_value(alloc, turn)?,
        "size" => count_value(8),
        _ => return Ok(None),
    };
    Ok(Some(value))
}

/// A member of `tablerowloop`, where it has one of the name.
pub(crate) fn row_loop_member(
    alloc: Global,
    turn: &RowLoop,
    name: &str,
) -> Result<Option<Value>, Memory>
    ensures { IfOk result (λ value. option_map plain value ≡ member_value name.now (row_value turn.now)) }
{
    let value = row_loop_value(alloc, turn)?;
    member_value(alloc, &value, name)
}

fn parent_value(alloc: Global, turn: &ForLoop) -> Result<Value, Memory>
    ensures { IfOk result (λ value. plain value ≡ around_value (out-ForLoop turn.now).parent) }
{
    match turn.parent {
        Some(parent) => for_loop_value(alloc, parent),
        None => Ok(Value::Nil),
    }
}

// Where a loop stands that has so many elements, and has passed so many.
fn counts(alloc: Global, len: u64, passed: u64) -> Result<Hash, Memory>
    ensures { IfOk result (λ hash. hash ≡ counts len passed no_pairs) }
{
    let (all, before) = (u128::from(len), u128::from(passed));
    let mut hash = Hash::new(alloc);
    push(alloc, &mut hash, "length", count_value(all))?;
    push(alloc, &mut hash, "index", count_value(before + 1))?;
    push(alloc, &mut hash, "index0", count_value(before))?;
    push(
        alloc,
        &mut hash,
        "rindex",
        count_value(all.saturating_sub(before)),
    )?;
    push(
        alloc,
        &mut hash,
        "rindex0",
        count_value(all.saturating_sub(before).saturating_sub(1)),
    )?;
    push(alloc, &mut hash, "first", Value::Bool(before == 0))?;
    push(alloc, &mut hash, "last", Value::Bool(before + 1 == all))?;
    Ok(hash)
}

fn push(alloc: Global, hash: &mut Hash, key: &str, value: Value) -> Result<(), Memory>
    ensures { OnOk result (hash.new ≡ onto_pairs hash.old (pair key.now (plain value) no_pairs)) }
{
    hash.push(Text::copy(alloc, key)?, value)
}

/// The row of the element behind so many, counted from 0.
pub fn row_of(columns: u64, passed: u64) -> u64
    ensures { result ≡ row_of columns passed }
{
    match passed.checked_div(columns) {
        Some(row) => row,
        None => 0,
    }
}

/// Its column, counted from 0.
pub fn column_of(columns: u64, passed: u64) -> u64
    ensures { result ≡ column_of columns passed }
{
    match passed.checked_rem(columns) {
        Some(column) => column,
        None => 0,
    }
}

/// Whether it is the last of its row.
pub fn ends_row(columns: u64, passed: u64) -> bool
    ensures { result ≡ ends_row columns passed }
{
    u128::from(column_of(columns, passed)) + 1 == u128::from(columns)
}
