// The numbers of a command line.
ghost use Rattle.std.specs.Prelude.{◌≡◌, ◌≤◌, ◌&&◌, nat_le, Some, None, IfSome, if◌then◌else◌};
ghost use Rattle.site_words.specs.Numbers.{number_in};

// The number that a text writes in decimal digits after an optional `+`, where it lies from `least`
// to `most`.
pub(crate) fn number_in(text: &str, least: u64, most: u64) -> Option<u64>
    ensures is { result ≡ number_in least most text.now }
    ensures within { IfSome result (λ number. number ≤ most) }
{
    match text.parse::<u64>() {
        Ok(number) => in_range(number, least, most),
        Err(_) => None,
    }
}

fn in_range(number: u64, least: u64, most: u64) -> Option<u64>
    ensures is { result ≡ (if nat_le least number && nat_le number most then Some number else None) }
    ensures within { IfSome result (λ number. number ≤ most) }
{
    if least <= number && number <= most {
        Some(number)
    } else {
        None
    }
}
