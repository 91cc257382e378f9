// Texts of a fixed shape.
ghost use Rattle.std.specs.Prelude.{◌≡◌, ◌≤◌, ◌<◌, ◌+◌, IsTrue, length};
ghost use Rattle.site_dates.specs.Shape.{fits, begins, has_shape, two_digits_at};

/// Whether a text begins with a shape, in which `0` stands for any digit and every other byte for itself.
pub(crate) fn begins(shape: &[u8], text: &[u8]) -> bool
    ensures is { result ≡ begins shape.now text.now }
    ensures long { IsTrue result → length shape.now ≤ length text.now }
{
    if text.len() < shape.len() {
        return false;
    }
    for (place, mark) in shape.iter().enumerate() {
        if !fits(*mark, text[place]) {
            return false;
        }
    }
    true
}

/// Whether a text has a shape.
pub(crate) fn has_shape(shape: &[u8], text: &[u8]) -> bool
    ensures is { result ≡ has_shape shape.now text.now }
    ensures long { IsTrue result → length text.now ≡ length shape.now }
{
    begins(shape, text) && text.len() == shape.len()
}

fn fits(mark: u8, byte: u8) -> bool
    ensures { result ≡ fits mark byte }
{
    if mark == b'0' {
        byte.is_ascii_digit()
    } else {
        byte == mark
    }
}

/// The number that the two digits at a place write.
pub(crate) fn two_digits_at(text: &[u8], at: usize) -> u32
    requires { at + 1 < length text.now }
    ensures is { result ≡ two_digits_at text.now at }
    ensures range { result ≤ 2277 }
{
    10 * u32::from(text[at].saturating_sub(b'0')) + u32::from(text[at + 1].saturating_sub(b'0'))
}
