// The numbers of JSON texts.
ghost use Rattle.std.specs.Prelude.{◌≡◌, ◌==◌, ◌<◌, IsTrue, length, slice_index, true, false, option_map};
ghost use Rattle.serde_json.specs.Find.{as_i64};
ghost use Rattle.serde_json.specs.Read.{number_of, number_from, float_of};

use fast_float::Numeral;

/// The number that a text of JSON's grammar writes, where it is whole and has 64 bits; `Some(None)` for another
/// one, and `None` for one that no float is near.
pub(crate) fn number_of(text: &str) -> Option<Option<i64>>
    ensures { result ≡ option_map as_i64 (number_of text.now) }
{
    let bytes = text.as_bytes();
    if has_minus(bytes) {
        negative(&Numeral::scan(&bytes[1..]))
    } else {
        unsigned(&Numeral::scan(bytes))
    }
}

fn has_minus(bytes: &[u8]) -> bool
    ensures value { result ≡ (slice_index bytes.now 0 == 45) }
    ensures len { IsTrue result → 0 < length bytes.now }
{
    !bytes.is_empty() && bytes[0] == b'-'
}

fn unsigned(numeral: &Numeral<'_>) -> Option<Option<i64>>
    ensures { result ≡ option_map as_i64 (number_from false numeral.now) }
{
    match numeral.to_u64() {
        Some(number) => if number <= i64::MAX as u64 {
            Some(Some(number as i64))
        } else {
            Some(None)
        },
        None => near(false, numeral),
    }
}

fn negative(numeral: &Numeral<'_>) -> Option<Option<i64>>
    ensures { result ≡ option_map as_i64 (number_from true numeral.now) }
{
    if let Some(number) = numeral.to_i64(true) {
        if number < 0 {
            return Some(Some(number));
        }
    }
    near(true, numeral)
}

// A number that is not whole, or too long.
fn near(is_negative: bool, numeral: &Numeral<'_>) -> Option<Option<i64>>
    ensures { result ≡ option_map as_i64 (float_of is_negative numeral.now) }
{
    let float: f64 = numeral.to_float::<f64>(is_negative);
    if float.is_finite() { Some(None) } else { None }
}
