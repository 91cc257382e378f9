// Whether bytes are the code of a text, found without making it.
ghost use Rattle.std.specs.Prelude.{◌≡◌, ◌↔◌, ◌∷◌, ◌++◌, [], IsTrue};
ghost use Rattle.site_base.specs.Code.{text_code};
ghost use Rattle.site_base.specs.Decimal.{decimal};

/// Whether these bytes are the code of the text with those bytes. It takes no memory.
pub(crate) fn is_text_code(text: &[u8], code: &[u8]) -> bool
    ensures { IsTrue result ↔ (code.now ≡ text_code text.now) }
{
    if code.len() < text.len() {
        return false;
    }
    let (head, rest) = code.split_at(code.len() - text.len());
    rest == text && is_head(head, text.len() as u64)
}

// `s`, the number, and `:`.
fn is_head(head: &[u8], number: u64) -> bool
    ensures { IsTrue result ↔ (head.now ≡ 115 ∷ (decimal number ++ 58 ∷ [])) }
{
    match head.split_last() {
        Some((b':', [b's', digits @ ..])) => is_decimal(digits, number),
        _ => false,
    }
}

// The digits are told from the last to the first.
fn is_decimal(digits: &[u8], number: u64) -> bool
    ensures { IsTrue result ↔ (digits.now ≡ decimal number) }
{
    let Some((last, rest)) = digits.split_last() else {
        return false;
    };
    if *last != b'0' + (number % 10) as u8 {
        return false;
    }
    if number < 10 {
        rest.is_empty()
    } else {
        is_decimal(rest, number / 10)
    }
}
