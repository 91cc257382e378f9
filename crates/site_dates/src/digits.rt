// Numbers in decimal digits, of a fixed width.
ghost use Rattle.std.specs.Prelude.{◌≡◌, ◌++◌, OnOk};
ghost use Rattle.std.specs.String.{string_bytes};
ghost use Rattle.site_dates.specs.Format.{digit, two_digits, three_digits, four_digits, bare_digits, spaced_digits};

use std::alloc::AllocError;

// Adds the last digit of a number.
fn push_digit(text: &mut String, n: u32) -> Result<(), AllocError>
    ensures { OnOk result (string_bytes text.new ≡ string_bytes text.old ++ digit n) }
{
    text.push((b'0' + (n % 10) as u8) as char)
}

/// Adds the last two digits of a number.
pub(crate) fn push_two_digits(text: &mut String, n: u32) -> Result<(), AllocError>
    ensures { OnOk result (string_bytes text.new ≡ string_bytes text.old ++ two_digits n) }
{
    push_digit(text, n / 10)?;
    push_digit(text, n)
}

/// Adds the last three digits of a number.
pub(crate) fn push_three_digits(text: &mut String, n: u32) -> Result<(), AllocError>
    ensures { OnOk result (string_bytes text.new ≡ string_bytes text.old ++ three_digits n) }
{
    push_digit(text, n / 100)?;
    push_two_digits(text, n)
}

/// Adds the last four digits of a number.
pub(crate) fn push_four_digits(text: &mut String, n: u32) -> Result<(), AllocError>
    ensures { OnOk result (string_bytes text.new ≡ string_bytes text.old ++ four_digits n) }
{
    push_two_digits(text, n / 100)?;
    push_two_digits(text, n)
}

/// Adds a number of up to two digits, without a zero in front.
pub(crate) fn push_bare_digits(text: &mut String, n: u32) -> Result<(), AllocError>
    ensures { OnOk result (string_bytes text.new ≡ string_bytes text.old ++ bare_digits n) }
{
    if n < 10 {
        push_digit(text, n)
    } else {
        push_two_digits(text, n)
    }
}

/// Adds a number of up to two digits, with a space in place of a zero in front.
pub(crate) fn push_spaced_digits(text: &mut String, n: u32) -> Result<(), AllocError>
    ensures { OnOk result (string_bytes text.new ≡ string_bytes text.old ++ spaced_digits n) }
{
    if n < 10 {
        text.push(' ')?;
        push_digit(text, n)
    } else {
        push_two_digits(text, n)
    }
}
