// How a run ended.
ghost use Rattle.std.specs.Prelude.{◌≡◌, ◌⊎◌, ℕ, length};
ghost use Rattle.site_program.specs.Runs.{status_number, reply_status};

use site_base::SiteFault;
use site_script::ScriptKind;
use site_session::Reply;
use site_words::UsageKind;

/// How a run ended.
#[derive(Drop)]
pub enum Status {
    /// All that was asked for was done.
    Done,
    /// The site has this first fault.
    Site(SiteFault),
    /// The words are no command line, or the moment is out of its range.
    Usage(UsageKind),
    /// The source failed.
    SourceFault,
    /// The writes and removals of so many paths failed, or, where it is 0, the output gave no list of its files.
    OutFault(u64),
    /// The input failed.
    InputFault,
    /// The sink failed.
    SinkFault,
    /// The line of this number is bad.
    Script(u64, ScriptKind),
    /// Memory was wanting.
    Memory,
}

impl Status {
    /// The number that the process ends with.
    pub fn number(&self) -> u8
        ensures { result ≡ status_number self.now }
    {
        match self {
            Status::Done => 0,
            Status::Site(_) => 1,
            Status::Usage(_) => 2,
            Status::SourceFault => 3,
            Status::OutFault(_) => 4,
            Status::InputFault => 5,
            Status::SinkFault => 6,
            Status::Script(_, _) => 7,
            Status::Memory => 8,
        }
    }
}

/// Why a line has no whole reply.
#[derive(Clone, Copy, Debug, PartialEq, Eq)]
pub(crate) enum Stop {
    Sink,
    Memory,
}

impl Stop {
    pub(crate) fn status(self) -> Status
        ensures cases { (result ≡ Status.SinkFault) ⊎ (result ≡ Status.Memory) }
        ensures memory { result ≡ Status.Memory → self ≡ Stop.Memory }
        ensures short { self ≡ Stop.Memory → result ≡ Status.Memory }
        ensures sink { result ≡ Status.SinkFault → self ≡ Stop.Sink }
    {
        match self {
            Stop::Sink => Status::SinkFault,
            Stop::Memory => Status::Memory,
        }
    }
}

// What a run ends with after its last reply.
pub(crate) fn status_of(reply: Reply) -> Status
    ensures { result ≡ reply_status reply }
{
    match reply {
        Reply::Faulty(fault) => Status::Site(fault),
        Reply::ScanFailed => Status::SourceFault,
        Reply::Marked(paths) => Status::OutFault(paths.len()),
        Reply::Unlisted => Status::OutFault(0),
        _ => Status::Done,
    }
}
