// The numbers of a script.
ghost use Rattle.std.specs.Prelude.{◌≡◌, ◌≤◌, IfSome};
ghost use Rattle.std.specs.List.{list_all};
ghost use Rattle.std.specs.Char.{is_ascii_digit};
ghost use Rattle.site_script.specs.Number.{is_number, number_up_to};

/// The number that a text writes in decimal digits without a leading zero, where it is at most `most`.
pub(crate) fn read_number(text: &str, most: u64) -> Option<u64>
    ensures is { result ≡ number_up_to most text.now }
    ensures within { IfSome result (λ number. number ≤ most) }
{
    if !is_number(text.as_bytes()) {
        return None;
    }
    match text.parse::<u64>() {
        Ok(number) if number <= most => Some(number),
        _ => None,
    }
}

fn is_number(text: &[u8]) -> bool
    ensures { result ≡ is_number text.now }
{
    is_all_digits(text) && !text.is_empty() && (text[0] != b'0' || text.len() == 1)
}

fn is_all_digits(text: &[u8]) -> bool
    ensures { result ≡ list_all is_ascii_digit text.now }
{
    text.iter().all(|b| b.is_ascii_digit())
}
