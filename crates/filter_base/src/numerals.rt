// What a value counts as where a number is wanted.
ghost use Rattle.std.specs.Prelude.{◌≡◌};
ghost use Rattle.std.specs.List.{list_all};
ghost use Rattle.std.specs.Str.Parse.{IsNumeral, without_leading_sign, signed_digits_value};
ghost use Rattle.site_base.specs.View.{plain};
ghost use Rattle.site_text.specs.Bytes.{is_digit};
ghost use Rattle.filter_base.specs.Numerals.{fitting, is_digits, without_dash, is_whole, is_decimal, text_number, num};

use site_base::{FaultKind, Value};

/// The number that a value counts as; what is no number counts as 0.
pub fn num(value: &Value) -> Result<i64, FaultKind>
    ensures { result ≡ num (plain value.now) }
{
    match value {
        Value::Int(number) => Ok(*number),
        Value::Text(text) => text_number(text.as_str()),
        _ => Ok(0),
    }
}

/// The number, where an `i64` holds it.
pub fn fit(number: i128) -> Result<i64, FaultKind>
    ensures { result ≡ fitting number }
{
    match i64::try_from(number) {
        Ok(number) => Ok(number),
        Err(_) => Err(FaultKind::Overflow),
    }
}

/// The same of a text.
pub(crate) fn text_number(text: &str) -> Result<i64, FaultKind>
    ensures { result ≡ text_number text.now }
{
    if is_whole(text) {
        return whole_number(text);
    }
    if is_decimal(text) {
        return Err(FaultKind::Fraction);
    }
    Ok(0)
}

fn whole_number(text: &str) -> Result<i64, FaultKind>
    requires { IsNumeral 10 (without_leading_sign text.now) }
    ensures { result ≡ fitting (signed_digits_value 10 text.now) }
{
    match text.parse::<i64>() {
        Ok(number) => Ok(number),
        Err(_) => Err(FaultKind::Overflow),
    }
}

fn is_decimal(text: &str) -> bool
    ensures { result ≡ is_decimal text.now }
{
    match text.split_once('.') {
        Some((front, digits)) => is_whole(front) && is_digits(digits.as_bytes()),
        None => false,
    }
}

fn is_whole(text: &str) -> bool
    ensures { result ≡ is_whole text.now }
{
    is_digits(without_dash(text.as_bytes()))
}

fn without_dash(text: &[u8]) -> &[u8]
    ensures { result.now ≡ without_dash text.now }
{
    match text {
        [b'-', digits @ ..] => digits,
        _ => text,
    }
}

/// Whether a text is digits alone, and some.
pub(crate) fn is_digits(text: &[u8]) -> bool
    ensures { result ≡ is_digits text.now }
{
    !text.is_empty() && all_digits(text)
}

fn all_digits(text: &[u8]) -> bool
    ensures { result ≡ list_all is_digit text.now }
{
    text.iter().all(|c| 48 <= *c && *c <= 57)
}
