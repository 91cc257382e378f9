// Values written out: their texts, and the numbers in them.
ghost use Rattle.std.specs.Prelude.{◌≡◌, ◌++◌, IfOk, OnOk};
ghost use Rattle.std.specs.String.{string_bytes};
ghost use Rattle.site_base.specs.Decimal.{decimal, signed};
ghost use Rattle.site_base.specs.Values.{value_text, items_text, range_text};
ghost use Rattle.site_base.specs.View.{plain, items_of};

use crate::{List, Memory, Text, Value};
use std::alloc::Global;

/// The text of a value: digits of a number, the texts of a list one after another, `a..b` of a range, and
/// nothing for nil, a hash and an item.
pub fn value_text(alloc: Global, value: &Value) -> Result<Text, Memory>
    ensures { IfOk result (λ text. text ≡ value_text (plain value.now)) }
{
    let mut out = String::new(alloc);
    push_text(value, &mut out)?;
    Text::from_string(out)
}

#[cycle(text)]
fn push_text(value: &Value, out: &mut String) -> Result<(), Memory>
    ensures { OnOk result (string_bytes out.new ≡ string_bytes out.old ++ value_text (plain value.now)) }
{
    match value {
        Value::Nil | Value::Hash(_) | Value::Item(_) => Ok(()),
        Value::Bool(true) => Ok(out.push_str("true")?),
        Value::Bool(false) => Ok(out.push_str("false")?),
        Value::Int(number) => push_signed(*number, out),
        Value::Text(text) => Ok(out.push_str(text.as_str())?),
        Value::List(list) => list.push_text(out),
        Value::Range(first, last) => push_range(*first, *last, out),
    }
}

impl List {
    #[cycle(text)]
    fn push_text(&self, out: &mut String) -> Result<(), Memory>
        ensures { OnOk result (string_bytes out.new ≡ string_bytes out.old ++ items_text self.now) }
    {
        for value in self.as_slice() {
            push_text(value, out)?;
        }
        Ok(())
    }
}

fn push_range(first: i64, last: i64, out: &mut String) -> Result<(), Memory>
    ensures { OnOk result (string_bytes out.new ≡ string_bytes out.old ++ range_text first last) }
{
    push_signed(first, out)?;
    out.push_str("..")?;
    push_signed(last, out)
}

/// Adds a number, with `-` before the digits of a negative one.
pub(crate) fn push_signed(number: i64, out: &mut String) -> Result<(), Memory>
    ensures { OnOk result (string_bytes out.new ≡ string_bytes out.old ++ signed number) }
{
    if number < 0 {
        out.push_str("-")?;
    }
    push_decimal(number.unsigned_abs(), out)
}

/// Adds the digits of a number.
pub(crate) fn push_decimal(number: u64, out: &mut String) -> Result<(), Memory>
    ensures { OnOk result (string_bytes out.new ≡ string_bytes out.old ++ decimal number) }
{
    if number >= 10 {
        push_decimal(number / 10, out)?;
    }
    out.push(char::from(b'0' + (number % 10) as u8))?;
    Ok(())
}
