// What is believed of one path.
use site_base::SharedBytes;

/// What is believed of a path that may be there.
#[derive(Drop)]
pub enum State {
    /// It is there, with these bytes.
    Known(SharedBytes),
    /// It may have any bytes, or be absent.
    Marked,
}
