// Texts cut at their first mark.
ghost use Rattle.std.specs.Prelude.{◌≡◌, ◌==◌, ◌<◌, ◌∷◌, [], IfSome, MatchOption, length, position};
ghost use Rattle.std.specs.List.{slice_split};
ghost use Rattle.site_items.specs.Labels.{is_white};

/// What stands before the first of an ASCII character, and what stands behind it; `None` where it does not occur.
pub fn cut_at(text: &str, mark: char) -> Option<(&str, &str)>
    requires { mark < 128 }
    ensures parts { MatchOption result
        (slice_split (λ b. b == mark) text.now ≡ text.now ∷ [])
        (λ cut. slice_split (λ b. b == mark) text.now ≡ cut.0.now ∷ slice_split (λ b. b == mark) cut.1.now) }
    ensures shorter { IfSome result (λ cut. length cut.1.now < length text.now) }
{
    text.split_once(mark)
}

/// The same of the first white space.
pub(crate) fn cut_word(text: &str) -> Option<(&str, &str)>
    ensures parts { MatchOption result
        (slice_split is_white text.now ≡ text.now ∷ [])
        (λ cut. slice_split is_white text.now ≡ cut.0.now ∷ slice_split is_white cut.1.now) }
    ensures shorter { IfSome result (λ cut. length cut.1.now < length text.now) }
{
    match white_place(text.as_bytes()) {
        Some(place) => Some((&text[..place], &text[place + 1..])),
        None => None,
    }
}

fn white_place(text: &[u8]) -> Option<usize>
    ensures { result ≡ position is_white text.now }
{
    text.iter().position(|byte| is_white(*byte))
}

fn is_white(byte: u8) -> bool
    ensures { result ≡ is_white byte }
{
    matches!(byte, b' ' | b'\t' | b'\n' | 0x0b | 0x0c | b'\r')
}
