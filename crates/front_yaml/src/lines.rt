// The lines of a text, each with its line end: LF, CR LF or CR.
ghost use Rattle.std.specs.Prelude.{◌≡◌, ◌+◌, ◌<◌, ◌≤◌, ◌∷◌, length, drop, slice_index, slice_range};
ghost use Rattle.site_base.specs.Lines.{ends_line, lines};
ghost use Rattle.front_yaml.specs.Front.{IsCut};

// Whether a line ends at `i`.
fn ends_line(bytes: &[u8], i: usize) -> bool
    requires { i < length bytes.now }
    ensures { result ≡ ends_line (slice_index bytes.now i) (drop (i + 1) bytes.now) }
{
    let c = bytes[i];
    c == b'\n' || c == b'\r' && !(i + 1 < bytes.len() && bytes[i + 1] == b'\n')
}

// Where the line that starts at `at` ends.
pub(crate) fn line_end(bytes: &[u8], at: usize) -> usize
    requires { at < length bytes.now }
    ensures after { at < result }
    ensures within { result ≤ length bytes.now }
    ensures line { lines (drop at bytes.now) ≡ slice_range bytes.now at result ∷ lines (drop result bytes.now) }
    ensures cut { IsCut bytes.now result }
{
    let mut i = at;
    while i < bytes.len() {
        let ends = ends_line(bytes, i);
        i += 1;
        if ends {
            return i;
        }
    }
    i
}
