// What a plain scalar stands for.
ghost use Rattle.std.specs.Prelude.{◌≡◌, ◌≤◌, ◌<◌, ◌^◌, ◌+◌, ◌*◌, MatchOption};
ghost use Rattle.std.specs.Char.{is_ascii_digit};
ghost use Rattle.std.specs.List.{list_all};
ghost use Rattle.std.specs.Str.{bytes_eq};
ghost use Rattle.front_yaml.specs.Scalars.{is_nil_word, is_true_word, is_false_word, number_from, is_number, unsigned, negated, integer, resolve};
ghost use Rattle.front_yaml.specs.Given.{ReadsValue, FaultFits};

use crate::faults::{PlaceError, PlaceFault};
use crate::growth::text_of;
use crate::scans::{is_empty, starts, tail};
use site_base::{Value, YamlKind};

pub(crate) fn equals(text: &[u8], word: &str) -> bool
    ensures { result ≡ bytes_eq text.now word.now }
{
    text == word.as_bytes()
}

fn is_nil_word(text: &[u8]) -> bool
    ensures { result ≡ is_nil_word text.now }
{
    is_empty(text)
        || equals(text, "~")
        || equals(text, "null")
        || equals(text, "Null")
        || equals(text, "NULL")
}

fn is_true_word(text: &[u8]) -> bool
    ensures { result ≡ is_true_word text.now }
{
    equals(text, "true")
        || equals(text, "True")
        || equals(text, "TRUE")
        || equals(text, "yes")
        || equals(text, "Yes")
        || equals(text, "YES")
        || equals(text, "on")
        || equals(text, "On")
        || equals(text, "ON")
}

fn is_false_word(text: &[u8]) -> bool
    ensures { result ≡ is_false_word text.now }
{
    equals(text, "false")
        || equals(text, "False")
        || equals(text, "FALSE")
        || equals(text, "no")
        || equals(text, "No")
        || equals(text, "NO")
        || equals(text, "off")
        || equals(text, "Off")
        || equals(text, "OFF")
}

fn all_digits(text: &[u8]) -> bool
    ensures { result ≡ list_all is_ascii_digit text.now }
{
    text.iter().all(|c| c.is_ascii_digit())
}

fn is_number(text: &[u8]) -> bool
    ensures { result ≡ is_number text.now }
{
    !is_empty(text) && all_digits(text) && (!starts(text, b'0') || equals(text, "0"))
}

// What stands behind a sign, or the whole text where it has none.
fn unsigned(text: &[u8]) -> &[u8]
    ensures { result.now ≡ unsigned text.now }
{
    match text {
        [b'+' | b'-', digits @ ..] => digits,
        _ => text,
    }
}

// The number that decimal digits write, where it is below 2^64.
fn number(digits: &[u8]) -> Option<u64>
    ensures { MatchOption result (2 ^ 64 ≤ number_from 0 digits.now) (λ n. n ≡ number_from 0 digits.now) }
{
    let mut number = 0u64;
    for c in digits {
        let digit = u64::from(c.saturating_sub(48));
        number = match one_digit_more(number, digit) {
            Some(more) => more,
            None => return None,
        };
    }
    Some(number)
}

fn one_digit_more(number: u64, digit: u64) -> Option<u64>
    ensures { MatchOption result (2 ^ 64 ≤ number * 10 + digit) (λ n. n ≡ number * 10 + digit) }
{
    match number.checked_mul(10) {
        Some(tens) => tens.checked_add(digit),
        None => None,
    }
}

fn negated(number: u64) -> i64
    requires { number ≤ 2 ^ 63 }
    ensures { result ≡ negated number }
{
    if number == 0 {
        0
    } else {
        -((number - 1) as i64) - 1
    }
}

const NO_NUMBER: PlaceError = PlaceError::Fault(PlaceFault {
    place: 0,
    kind: YamlKind::Number,
});

// The integer of a sign and digits, which an i64 has to hold.
fn integer(minus: bool, digits: &[u8]) -> Result<Value, PlaceError>
    ensures value { ReadsValue result (integer minus (number_from 0 digits.now)) }
    ensures place { FaultFits 0 result }
{
    match number(digits) {
        Some(number) if minus && number <= 1 << 63 => Ok(Value::Int(negated(number))),
        Some(number) if !minus && number < 1 << 63 => Ok(Value::Int(number as i64)),
        _ => Err(NO_NUMBER),
    }
}

/// The value of a plain scalar whose lines are folded.
pub(crate) fn resolve(text: Vec<u8>) -> Result<Value, PlaceError>
    ensures value { ReadsValue result (resolve text.items) }
    ensures place { FaultFits 0 result }
{
    let bytes = text.as_slice();
    if is_nil_word(bytes) {
        return Ok(Value::Nil);
    }
    if is_true_word(bytes) {
        return Ok(Value::Bool(true));
    }
    if is_false_word(bytes) {
        return Ok(Value::Bool(false));
    }
    if is_number(unsigned(bytes)) {
        return integer(starts(bytes, b'-'), unsigned(bytes));
    }
    Ok(Value::Text(text_of(text)?))
}
