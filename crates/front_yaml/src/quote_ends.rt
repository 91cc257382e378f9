// Where quotes end.
ghost use Rattle.std.specs.Prelude.{◌≡◌, ◌<◌, length, IfSome};
ghost use Rattle.front_yaml.specs.Quotes.{single_len, double_len, quote_len, is_quote};

use crate::scans::{starts, tail};

pub(crate) fn is_quote(c: u8) -> bool
    ensures { result ≡ is_quote c }
{
    c == b'\'' || c == b'"'
}

// How many bytes stand before the closing double quote.
#[tactic(auto, using(crate::proofs::Added::added_later, crate::proofs::Added::added_zero))]
fn double_len(text: &[u8]) -> Option<usize>
    ensures value { result ≡ double_len 0 text.now }
    ensures within { IfSome result (λ n. n < length text.now) }
{
    let mut escaped = false;
    let mut n = 0;
    while n < text.len() {
        let c = text[n];
        n += 1;
        if escaped {
            escaped = false;
        } else if c == b'"' {
            return Some(n - 1);
        } else {
            escaped = c == b'\\';
        }
    }
    None
}

// How many bytes stand before the closing single quote.
#[tactic(auto, using(crate::proofs::Added::added_later, crate::proofs::Added::added_zero))]
fn single_len(text: &[u8]) -> Option<usize>
    ensures value { result ≡ single_len 0 text.now }
    ensures within { IfSome result (λ n. n < length text.now) }
{
    let mut second = false;
    let mut n = 0;
    while n < text.len() {
        let quote = text[n] == b'\'';
        let doubled = starts(tail(text, n + 1), b'\'');
        if second {
            second = false;
        } else if quote && !doubled {
            return Some(n);
        } else {
            second = quote;
        }
        n += 1;
    }
    None
}

/// How many bytes stand before the quote that closes what this one opened, where one does.
pub(crate) fn quote_len(quote: u8, text: &[u8]) -> Option<usize>
    ensures value { result ≡ quote_len quote text.now }
    ensures within { IfSome result (λ n. n < length text.now) }
{
    if quote == b'\'' {
        single_len(text)
    } else {
        double_len(text)
    }
}
