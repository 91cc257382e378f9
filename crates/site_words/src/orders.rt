// What the words of a command line may order.
use site_base::Settings;

/// What `build` and `session` are given.
#[derive(Clone, Copy, Debug, PartialEq, Eq)]
pub struct Options {
    /// How many jobs may run at once, from 1 to 64.
    pub jobs: u32,
    pub settings: Settings,
    /// The reply to each build tells why each page was rendered.
    pub why: bool,
}

/// A command with what it was given.
#[derive(Clone, Copy, Debug, PartialEq, Eq)]
pub enum Order {
    Build(Options),
    Session(Options),
    Once(Settings),
    Check(Settings),
    /// The site that is generated from a number, and its count, from 1 to 1,000.
    Make(u64, u32),
}
