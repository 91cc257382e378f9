// The code of a value.
ghost use Rattle.std.specs.Prelude.{◌≡◌, ◌++◌, ◌↔◌, ◌∷◌, IsTrue, OnOk, IfOk};
ghost use Rattle.std.specs.String.{string_bytes};
ghost use Rattle.site_base.specs.Plain.{Plain, int, list, hash, site_item, range};
ghost use Rattle.site_base.specs.View.{plain};
ghost use Rattle.site_base.specs.Code.{code, text_code};

use crate::value::writing::{push_decimal, push_signed};
use crate::{Hash, ItemName, List, Memory, Value};
use std::alloc::Global;

/// The code of a value: a letter for its kind, and then, for all that has parts, their number or length and
/// their codes. Two values have one code exactly where they are equal.
pub fn code(alloc: Global, value: &Value) -> Result<Vec<u8>, Memory>
    ensures code { IfOk result (λ bytes. bytes.items ≡ code (plain value.now)) }
    ensures one { IfOk result (λ bytes. (other : Plain) → code other ≡ bytes.items → other ≡ plain value.now) }
{
    let mut out = String::new(alloc);
    push_code(value, &mut out)?;
    Ok(out.into_bytes())
}

#[cycle(code)]
fn push_code(value: &Value, out: &mut String) -> Result<(), Memory>
    ensures { OnOk result (string_bytes out.new ≡ string_bytes out.old ++ code (plain value.now)) }
{
    match value {
        Value::Nil => Ok(out.push_str("n")?),
        Value::Bool(true) => Ok(out.push_str("t")?),
        Value::Bool(false) => Ok(out.push_str("f")?),
        Value::Int(number) => push_int(*number, out),
        Value::Text(text) => push_text(text.as_str(), out),
        Value::List(list) => list.push_code(out),
        Value::Hash(hash) => hash.push_code(out),
        Value::Item(name) => push_name(name, out),
        Value::Range(first, last) => push_range(*first, *last, out),
    }
}

fn push_int(number: i64, out: &mut String) -> Result<(), Memory>
    ensures { OnOk result (string_bytes out.new ≡ string_bytes out.old ++ code (int number)) }
{
    out.push_str("i")?;
    push_signed(number, out)?;
    Ok(out.push_str(";")?)
}

fn push_text(text: &str, out: &mut String) -> Result<(), Memory>
    ensures { OnOk result (string_bytes out.new ≡ string_bytes out.old ++ text_code text.now) }
{
    out.push_str("s")?;
    push_decimal(text.len() as u64, out)?;
    out.push_str(":")?;
    Ok(out.push_str(text)?)
}

fn push_name(name: &ItemName, out: &mut String) -> Result<(), Memory>
    ensures { OnOk result (string_bytes out.new ≡ string_bytes out.old ++ code (site_item name.now.path name.now.part)) }
{
    out.push_str("p")?;
    push_text(name.path.text(), out)?;
    push_decimal(u64::from(name.part), out)?;
    Ok(out.push_str(";")?)
}

fn push_range(first: i64, last: i64, out: &mut String) -> Result<(), Memory>
    ensures { OnOk result (string_bytes out.new ≡ string_bytes out.old ++ code (range first last)) }
{
    out.push_str("r")?;
    push_signed(first, out)?;
    out.push_str(";")?;
    push_signed(last, out)?;
    Ok(out.push_str(";")?)
}

impl List {
    #[cycle(code)]
    fn push_code(&self, out: &mut String) -> Result<(), Memory>
        ensures { OnOk result (string_bytes out.new ≡ string_bytes out.old ++ code (list self.now)) }
    {
        out.push_str("l")?;
        push_decimal(self.len(), out)?;
        out.push_str(":")?;
        for value in self.as_slice() {
            push_code(value, out)?;
        }
        Ok(())
    }
}

impl Hash {
    #[cycle(code)]
    fn push_code(&self, out: &mut String) -> Result<(), Memory>
        ensures { OnOk result (string_bytes out.new ≡ string_bytes out.old ++ code (hash self.now)) }
    {
        out.push_str("h")?;
        push_decimal(self.len(), out)?;
        out.push_str(":")?;
        for pair in self.as_slice() {
            push_text(pair.key.as_str(), out)?;
            push_code(&pair.value, out)?;
        }
        Ok(())
    }
}
