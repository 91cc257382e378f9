// The numbers that digits spell.
ghost use Rattle.std.specs.Prelude.{◌≡◌, ◌≤◌, length};
ghost use Rattle.std.specs.Char.{digit_value};
ghost use Rattle.std.specs.Str.Parse.{digits_value};

/// The number that at most ten digits spell; a byte that is no digit counts as 36.
pub fn number(base: u64, digits: &[u8]) -> u64
    requires base { base ≤ 16 }
    requires few { length digits.now ≤ 10 }
    ensures { result ≡ digits_value base digits.now }
{
    let mut value = 0;
    let mut i = 0;
    while i < digits.len() {
        value = value * base + digit(digits[i]);
        i += 1;
    }
    value
}

fn digit(c: u8) -> u64
    ensures value { result ≡ digit_value c }
    ensures small { result ≤ 36 }
{
    match (c as char).to_digit(36) {
        Some(value) => u64::from(value),
        None => 36,
    }
}
