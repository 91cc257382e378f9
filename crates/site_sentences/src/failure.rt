// What fails while a program runs, whatever is asked of it.
ghost use Rattle.std.specs.Prelude.{◌≡◌};
ghost use Rattle.site_sentences.specs.Lines.{failure_number};

/// Why a run was cut short.
#[derive(Clone, Copy, Debug, PartialEq, Eq)]
pub enum Failure {
    /// The folder could not be read.
    Source,
    /// The output gave no list of its files.
    List,
    /// The writes and removals of so many paths failed.
    Writes(u64),
    /// Standard input could not be read.
    Input,
    /// Standard output could not be written.
    Sink,
    Memory,
}

impl Failure {
    /// The status that the program ends with.
    pub fn number(self) -> u8
        ensures { result ≡ failure_number self }
    {
        match self {
            Failure::Source => 3,
            Failure::List => 4,
            Failure::Writes(_) => 4,
            Failure::Input => 5,
            Failure::Sink => 6,
            Failure::Memory => 8,
        }
    }
}
