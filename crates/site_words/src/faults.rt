// What is wrong with the words of a command line.
ghost use Rattle.std.specs.Prelude.{◌≡◌};
ghost use Rattle.site_words.specs.Words.{usage_number};

/// What is wrong with a command line, in the order tested.
#[derive(Clone, Copy, Debug, PartialEq, Eq)]
pub enum UsageKind {
    /// There is no word.
    Missing,
    /// The first word is no command.
    Command,
    /// A further word is no option of the command, an option is given twice, or the number of
    /// `--jobs` is missing or out of its range.
    Option,
    /// The words after `make` are not two numbers in their ranges.
    Number,
    /// The moment is out of its range; no words have this kind.
    Moment,
}

impl UsageKind {
    /// The number that the program prints: the kind's place, from 1 for `Missing`.
    pub fn number(self) -> u8
        ensures { result ≡ usage_number self }
    {
        match self {
            UsageKind::Missing => 1,
            UsageKind::Command => 2,
            UsageKind::Option => 3,
            UsageKind::Number => 4,
            UsageKind::Moment => 5,
        }
    }
}

/// Why words have no order.
#[derive(Clone, Copy, Debug, PartialEq, Eq)]
pub enum WordsError {
    Usage(UsageKind),
    /// There was no memory to read them.
    Memory,
}
