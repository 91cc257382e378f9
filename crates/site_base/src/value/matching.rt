// Whether bytes are the code of a value, found without writing it.
ghost use Rattle.std.specs.Prelude.{◌≡◌, ◌↔◌, ◌∷◌, ◌++◌, [], IsTrue};
ghost use Rattle.std.specs.Option.{option_copied};
ghost use Rattle.site_base.specs.Code.{past, code, text_code};
ghost use Rattle.site_base.specs.Decimal.{decimal, signed};
ghost use Rattle.site_base.specs.Plain.{list, hash, site_item, range};
ghost use Rattle.site_base.specs.View.{plain};

use crate::{Hash, ItemName, List, Value};

/// Whether the code of a value is these bytes. It takes no memory.
pub fn same_code(value: &Value, bytes: &[u8]) -> bool
    ensures { IsTrue result ↔ (bytes.now ≡ code (plain value.now)) }
{
    match past_value(value, Some(bytes)) {
        Some(rest) => rest.is_empty(),
        None => false,
    }
}

// What follows the code of a value, where it stands at the front of what was found before.
#[cycle(past)]
fn past_value<'b>(value: &Value, bytes: Option<&'b [u8]>) -> Option<&'b [u8]>
    ensures { option_copied result ≡ past (code (plain value.now)) (option_copied bytes.entry) }
{
    match value {
        Value::Nil => past_byte(b'n', bytes),
        Value::Bool(true) => past_byte(b't', bytes),
        Value::Bool(false) => past_byte(b'f', bytes),
        Value::Int(number) => past_end(*number, past_byte(b'i', bytes)),
        Value::Text(text) => past_text(text.as_str(), bytes),
        Value::List(list) => list.past_code(bytes),
        Value::Hash(hash) => hash.past_code(bytes),
        Value::Item(name) => past_name(name, bytes),
        Value::Range(first, last) => past_range(*first, *last, bytes),
    }
}

impl List {
    #[cycle(past)]
    fn past_code<'b>(&self, bytes: Option<&'b [u8]>) -> Option<&'b [u8]>
        ensures { option_copied result ≡ past (code (list self.now)) (option_copied bytes.entry) }
    {
        let mut rest = past_head(b'l', self.len(), bytes);
        for value in self.as_slice() {
            rest = past_value(value, rest);
        }
        rest
    }
}

impl Hash {
    #[cycle(past)]
    fn past_code<'b>(&self, bytes: Option<&'b [u8]>) -> Option<&'b [u8]>
        ensures { option_copied result ≡ past (code (hash self.now)) (option_copied bytes.entry) }
    {
        let mut rest = past_head(b'h', self.len(), bytes);
        for pair in self.as_slice() {
            rest = past_value(&pair.value, past_text(pair.key.as_str(), rest));
        }
        rest
    }
}

#[tactic(auto, using(crate::proofs::PastLaws::past_past))]
fn past_range(first: i64, last: i64, bytes: Option<&[u8]>) -> Option<&[u8]>
    ensures { option_copied result ≡ past (code (range first last)) (option_copied bytes.entry) }
{
    past_end(last, past_end(first, past_byte(b'r', bytes)))
}

#[tactic(auto, using(crate::proofs::PastLaws::past_past))]
fn past_name<'b>(name: &ItemName, bytes: Option<&'b [u8]>) -> Option<&'b [u8]>
    ensures { option_copied result ≡ past (code (site_item name.now.path name.now.part)) (option_copied bytes.entry) }
{
    past_end(
        i64::from(name.part),
        past_text(name.path.text(), past_byte(b'p', bytes)),
    )
}

#[tactic(auto, using(crate::proofs::PastLaws::past_past))]
fn past_text<'b>(text: &str, bytes: Option<&'b [u8]>) -> Option<&'b [u8]>
    ensures { option_copied result ≡ past (text_code text.now) (option_copied bytes.entry) }
{
    past_bytes(text.as_bytes(), past_head(b's', text.len() as u64, bytes))
}

// A letter, a number of parts, and `:`.
#[tactic(auto, using(crate::proofs::PastLaws::past_past))]
fn past_head(letter: u8, number: u64, bytes: Option<&[u8]>) -> Option<&[u8]>
    ensures { option_copied result ≡ past (letter ∷ (decimal number ++ (58 ∷ []))) (option_copied bytes.entry) }
{
    past_byte(b':', past_decimal(number, past_byte(letter, bytes)))
}

// A number, and `;`.
#[tactic(auto, using(crate::proofs::PastLaws::past_past))]
fn past_end(number: i64, bytes: Option<&[u8]>) -> Option<&[u8]>
    ensures { option_copied result ≡ past (signed number ++ 59 ∷ []) (option_copied bytes.entry) }
{
    past_byte(b';', past_signed(number, bytes))
}

#[tactic(auto, using(crate::proofs::PastLaws::past_past))]
fn past_signed(number: i64, bytes: Option<&[u8]>) -> Option<&[u8]>
    ensures { option_copied result ≡ past (signed number) (option_copied bytes.entry) }
{
    if number < 0 {
        past_decimal(number.unsigned_abs(), past_byte(b'-', bytes))
    } else {
        past_decimal(number.unsigned_abs(), bytes)
    }
}

#[tactic(auto, using(crate::proofs::PastLaws::past_past, crate::proofs::DecimalLaws::decimal_small, crate::proofs::DecimalLaws::decimal_large))]
fn past_decimal(number: u64, bytes: Option<&[u8]>) -> Option<&[u8]>
    ensures { option_copied result ≡ past (decimal number) (option_copied bytes.entry) }
{
    if number < 10 {
        return past_byte(b'0' + number as u8, bytes);
    }
    past_byte(b'0' + (number % 10) as u8, past_decimal(number / 10, bytes))
}

fn past_byte(byte: u8, bytes: Option<&[u8]>) -> Option<&[u8]>
    ensures { option_copied result ≡ past (byte ∷ []) (option_copied bytes.entry) }
{
    match bytes {
        Some([first, rest @ ..]) if *first == byte => Some(rest),
        _ => None,
    }
}

#[tactic(auto, using(crate::proofs::PastLaws::after_front))]
fn past_bytes<'b>(front: &[u8], bytes: Option<&'b [u8]>) -> Option<&'b [u8]>
    ensures { option_copied result ≡ past front.now (option_copied bytes.entry) }
{
    match bytes {
        Some(bytes) => bytes.strip_prefix(front),
        None => None,
    }
}
