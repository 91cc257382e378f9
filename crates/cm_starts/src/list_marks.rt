// The marks of list items as a type.
ghost use Rattle.std.specs.Prelude.{◌≡◌};
ghost use Rattle.cm_starts.specs.Marks.{mark_byte};

/// The mark of a list item: a bullet, or what stands behind a number. CommonMark 0.31.2, section 5.2.
#[derive(Clone, Copy, PartialEq, Eq, Debug)]
pub enum ListMark {
    Hyphen,
    Plus,
    Star,
    FullStop,
    Parenthesis,
}

impl ListMark {
    /// The mark's character.
    pub fn as_char(self) -> char
        ensures { result ≡ mark_byte self }
    {
        match self {
            ListMark::Hyphen => '-',
            ListMark::Plus => '+',
            ListMark::Star => '*',
            ListMark::FullStop => '.',
            ListMark::Parenthesis => ')',
        }
    }
}
