// The filter that reads a text in the form of a URL.
ghost use Rattle.std.specs.Prelude.{◌≡◌, ◌<◌, Some, None, IfSome, MatchOption, length, map};
ghost use Rattle.site_base.specs.View.{plain};
ghost use Rattle.filter_base.specs.Answers.{Makes};
ghost use Rattle.filter_base.specs.Taken.{MakesBytes};
ghost use Rattle.text_filters.specs.UrlTexts.{as_text, both_digits, escaped, hex_value, plain_byte, url_bytes, url_decode, with_byte};

use filter_base::{Stop, no_more};
use site_base::{FaultKind, Text, Value, value_text};
use std::alloc::Global;

/// The text of an input with its escapes read. FilterArgument comes where there is an argument, or where an escape or the text
/// is of a wrong form.
pub fn url_decode(alloc: Global, input: &Value, args: &[Value]) -> Result<Value, Stop>
    ensures { Makes (url_decode (plain input.now) (map plain args.now)) result }
{
    no_more(args)?;
    let written = value_text(alloc, input)?;
    as_text(url_bytes(alloc, written.as_bytes())?)
}

fn as_text(bytes: Vec<u8>) -> Result<Value, Stop>
    ensures { Makes (as_text (Some bytes.items)) result }
{
    match String::from_utf8(bytes) {
        Ok(made) => Ok(Value::Text(Text::from_string(made)?)),
        Err(_) => Err(Stop::Fault(FaultKind::FilterArgument)),
    }
}

fn url_bytes(alloc: Global, written: &[u8]) -> Result<Vec<u8>, Stop>
    ensures { MakesBytes (url_bytes written.now) result }
{
    let mut made = Vec::new(alloc);
    let mut rest = written;
    while !rest.is_empty() {
        match next_byte(rest) {
            Some((byte, behind)) => {
                made.push(byte)?;
                rest = behind;
            }
            None => return Err(Stop::Fault(FaultKind::FilterArgument)),
        }
    }
    Ok(made)
}

// The byte that stands at the front, and what follows; `None` where the form is wrong.
fn next_byte(written: &[u8]) -> Option<(u8, &[u8])>
    requires { 0 < length written.now }
    ensures form { MatchOption result (url_bytes written.now ≡ None) (λ x. url_bytes written.now ≡ with_byte (Some x.0) (url_bytes x.1.now)) }
    ensures shorter { IfSome result (λ x. length x.1.now < length written.now) }
{
    match written {
        [first, others @ ..] => {
            if *first == b'%' {
                escaped_byte(others)
            } else {
                Some((plain_byte(*first), others))
            }
        }
        [] => None,
    }
}

fn plain_byte(byte: u8) -> u8
    ensures { result ≡ plain_byte byte }
{
    if byte == b'+' { b' ' } else { byte }
}

fn escaped_byte(digits: &[u8]) -> Option<(u8, &[u8])>
    ensures form { MatchOption result (escaped digits.now ≡ None) (λ x. escaped digits.now ≡ with_byte (Some x.0) (url_bytes x.1.now)) }
    ensures shorter { IfSome result (λ x. length x.1.now < length digits.now) }
{
    match digits {
        [high, low, behind @ ..] => match both_digits(hex_value(*high), hex_value(*low)) {
            Some(byte) => Some((byte, behind)),
            None => None,
        },
        _ => None,
    }
}

fn both_digits(high: Option<u8>, low: Option<u8>) -> Option<u8>
    requires high { IfSome high (λ d. d < 16) }
    requires low { IfSome low (λ d. d < 16) }
    ensures { result ≡ both_digits high low }
{
    match (high, low) {
        (Some(high), Some(low)) => Some(16 * high + low),
        _ => None,
    }
}

fn hex_value(digit: u8) -> Option<u8>
    ensures value { result ≡ hex_value digit }
    ensures small { IfSome result (λ d. d < 16) }
{
    match digit {
        b'0'..=b'9' => Some(digit - 48),
        b'A'..=b'F' => Some(digit - 55),
        b'a'..=b'f' => Some(digit - 87),
        _ => None,
    }
}
