// The bytes of a line.
ghost use Rattle.std.specs.Prelude.{◌≡◌, ◌==◌, ℕ, List, length, false, Some, IfErr, IfOk, OnErr, if◌then◌else◌};
ghost use Rattle.std.specs.Io.BufRead.{strip_last};
ghost use Rattle.site_base.specs.Ends.{HasCause, HasCauseOf};
ghost use Rattle.site_script.specs.Reading.{IsNext, IsPartOfLine, IsRawLine};

use site_base::{ByteSource, Failed, ReadError};
use std::alloc::Global;

// The most bytes of a line's content, and a CR.
const MOST_BYTES: u32 = 2049;

/// The bytes of a line without its LF, and whether it has one.
#[derive(Drop)]
pub(crate) struct RawLine {
    bytes: Vec<u8>,
    ended: bool,
}

impl RawLine {
    /// Whether nothing is there, not even the end of a line.
    pub(crate) fn is_nothing(&self) -> bool
        ensures { result ≡ (if self.now.ended then false else (length self.now.bytes.items == 0)) }
    {
        !self.ended && self.bytes.is_empty()
    }

    /// What the line says: a CR before its LF is dropped.
    pub(crate) fn content(&self) -> &[u8]
        ensures { result.now ≡ (if self.now.ended then strip_last 13 self.now.bytes.items else self.now.bytes.items) }
    {
        if self.ended && !self.bytes.is_empty() && self.bytes[self.bytes.len() - 1] == b'\r' {
            &self.bytes[..self.bytes.len() - 1]
        } else {
            &self.bytes
        }
    }
}

/// The line that comes next; None as soon as it is seen to be too long. It reads to the line's LF, and no further.
pub(crate) fn read_raw_line<I: ByteSource>(
    alloc: Global,
    input: &mut I,
) -> Result<Option<RawLine>, ReadError>
    ensures ok { (text : List ℕ) → I.left input.old ≡ Some text →
        IfOk result (λ line. IsRawLine text line (I.left input.new)) }
    ensures part { (text : List ℕ) → I.left input.old ≡ Some text →
        IfErr result (λ error. IsPartOfLine text error (I.left input.new)) }
    ensures cause { HasCauseOf ReadError.Failed (I.failures input.old) (I.failures input.new) result }
{
    let mut bytes = Vec::new(alloc);
    for count in 0..MOST_BYTES + 1 {
        match next_byte(input) {
            Ok(Some(byte)) => {
                if byte == b'\n' {
                    return Ok(Some(RawLine { bytes, ended: true }));
                }
                if bytes.push(byte).is_err() {
                    return Err(ReadError::Memory);
                }
            }
            Ok(None) => {
                return Ok(Some(RawLine {
                    bytes,
                    ended: false,
                }));
            }
            Err(Failed) => return Err(ReadError::Failed),
        }
    }
    Ok(None)
}

// None at the input's end.
fn next_byte<I: ByteSource>(input: &mut I) -> Result<Option<u8>, Failed>
    ensures byte { (text : List ℕ) → I.left input.old ≡ Some text → IfOk result (λ byte. IsNext text byte (I.left input.new)) }
    ensures kept { OnErr result (I.left input.new ≡ I.left input.old) }
    ensures cause { HasCause (I.failures input.old) (I.failures input.new) result }
{
    let mut one = [0u8; 1];
    match input.read(&mut one) {
        Ok(count) => Ok(if count == 0 { None } else { Some(one[0]) }),
        Err(Failed) => Err(Failed),
    }
}
