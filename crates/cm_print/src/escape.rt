// Which bytes do not stand for themselves in HTML.
ghost use Rattle.std.specs.Prelude.{◌≡◌, false};
ghost use Rattle.cm_print.specs.Escapes.{escape_byte, is_plain};

/// What a text is: one that stands as it is, or that of a code span, in which line ends stand for spaces.
#[derive(Clone, Copy, Debug, PartialEq, Eq)]
pub(crate) enum Escape {
    Text,
    Code,
}

impl Escape {
    /// Whether a byte stands for itself.
    pub(crate) fn is_plain(self, byte: u8) -> bool
        ensures { result ≡ is_plain self byte }
    {
        match byte {
            b'&' | b'<' | b'>' | b'"' => false,
            b'\n' => self == Escape::Text,
            _ => true,
        }
    }

    /// What stands for a byte that does not stand for itself.
    pub(crate) fn reference(self, byte: u8) -> &'static str
        requires { is_plain self byte ≡ false }
        ensures { result.now ≡ escape_byte self byte }
    {
        match byte {
            b'&' => "&amp;",
            b'<' => "&lt;",
            b'>' => "&gt;",
            b'"' => "&quot;",
            _ => " ",
        }
    }
}
