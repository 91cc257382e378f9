// Whether bytes are the code of a text, for worlds that lend texts and have no value of them.
ghost use Rattle.std.specs.Prelude.{◌≡◌, ◌↔◌, ◌∷◌, ◌++◌, [], IsTrue};
ghost use Rattle.std.specs.Option.{option_copied};
ghost use Rattle.site_base.specs.Code.{past, text_code};
ghost use Rattle.site_base.specs.Decimal.{decimal};

use site_base::Text;

/// Whether the code of a text is these bytes; it takes no memory.
pub(crate) fn is_text_code(text: &Text, bytes: &[u8]) -> bool
    ensures { IsTrue result ↔ (bytes.now ≡ text_code text.now) }
{
    match past_text(text, bytes) {
        Some(rest) => rest.is_empty(),
        None => false,
    }
}

#[tactic(auto, using(site_base::proofs::PastLaws::past_past))]
fn past_text<'b>(text: &Text, bytes: &'b [u8]) -> Option<&'b [u8]>
    ensures { option_copied result ≡ past (text_code text.now) (Some bytes.now) }
{
    let length = past_number(text.len() as u64, past_byte(b's', Some(bytes)));
    past_bytes(text.as_bytes(), past_byte(b':', length))
}

#[tactic(auto, using(site_base::proofs::PastLaws::past_past, site_base::proofs::DecimalLaws::decimal_small, site_base::proofs::DecimalLaws::decimal_large))]
fn past_number(number: u64, bytes: Option<&[u8]>) -> Option<&[u8]>
    ensures { option_copied result ≡ past (decimal number) (option_copied bytes.entry) }
{
    if number < 10 {
        return past_byte(b'0' + number as u8, bytes);
    }
    past_byte(b'0' + (number % 10) as u8, past_number(number / 10, bytes))
}

fn past_byte(byte: u8, bytes: Option<&[u8]>) -> Option<&[u8]>
    ensures { option_copied result ≡ past (byte ∷ []) (option_copied bytes.entry) }
{
    match bytes {
        Some([first, rest @ ..]) if *first == byte => Some(rest),
        _ => None,
    }
}

#[tactic(auto, using(site_base::proofs::PastLaws::after_front))]
fn past_bytes<'b>(front: &[u8], bytes: Option<&'b [u8]>) -> Option<&'b [u8]>
    ensures { option_copied result ≡ past front.now (option_copied bytes.entry) }
{
    match bytes {
        Some(bytes) => bytes.strip_prefix(front),
        None => None,
    }
}
