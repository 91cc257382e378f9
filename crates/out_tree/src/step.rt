// The calls of an output.
use site_base::{SharedBytes, SitePath};

/// A call that changes an output at one path.
#[derive(Drop)]
pub enum Step {
    Remove(SitePath),
    Write(SitePath, SharedBytes),
}

/// A call of an output.
#[derive(Drop)]
pub enum Call {
    List,
    Try(Step),
}
