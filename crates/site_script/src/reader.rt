// The lines of a script, read one after another.
ghost use Rattle.std.specs.Prelude.{◌≡◌, ◌≤◌, ℕ, List, Some, true, false};
ghost use Rattle.site_base.specs.Ends.{Rose};
ghost use Rattle.site_script.specs.Line.{line_number, ends, HasTime, IsInTime};
ghost use Rattle.site_script.specs.Reading.{ReadsRest};
ghost use Rattle.site_script.specs.Script.{ReadsFirst, BearsNumber};

use crate::body::read_body;
use crate::head::{Head, read_head};
use crate::raw_line::{RawLine, read_raw_line};
use crate::{Line, ScriptKind};
use site_base::{ByteSource, FileBytes, Memory, ReadError};
use std::alloc::Global;
use std::marker::Model;

/// Where a script is read on.
#[derive(Drop)]
pub struct ScriptReader {
    lines: u64,
    over: bool,
}

impl Model for ScriptReader {
    ghost use Rattle.site_script.specs.Reader.{ReaderState};

    ghost Value = { ReaderState };

    ghost view = { λ reader. record { lines = reader.lines; over = reader.over } };
}

impl ScriptReader {
    /// A reader at the first line.
    pub fn new() -> ScriptReader
        ensures { result ≡ record { lines = 0; over = false } }
    {
        ScriptReader {
            lines: 0,
            over: false,
        }
    }

    /// The number of the line read last, from 1; 0 before the first, and it stays at its last value.
    pub fn number(&self) -> u64
        ensures { result ≡ self.now.lines }
    {
        self.lines
    }
}

/// Reads the next line, and nothing that follows it. After `End`, `Eof`, `Bad`, `Failed` and `Memory` it
/// answers `Eof`. `Failed` comes only before the line is whole.
pub fn next_line<I: ByteSource>(alloc: Global, reader: &mut ScriptReader, input: &mut I) -> Line
    // Where the input tells its bytes, the line is the first of them, and no byte behind it is taken. Where the input
    // failed, the bytes taken hold no whole line.
    ensures line { (text : List ℕ) → reader.old.over ≡ false → I.left input.old ≡ Some text →
        ReadsFirst (line_number reader.old.lines) text result (I.left input.new) }
    ensures number { reader.old.over ≡ false → reader.new.lines ≡ line_number reader.old.lines }
    ensures bad { BearsNumber reader.new.lines result }
    ensures time { IsInTime result }
    ensures over { reader.new.over ≡ ends result }

    // Once the script is over, no call touches the input.
    ensures after { reader.old.over ≡ true →
        (result ≡ Line.Eof) × (reader.new ≡ reader.old) × (input.new ≡ input.old) }

    // It fails exactly where the input does.
    ensures later { I.failures input.old ≤ I.failures input.new }
    ensures failed { result ≡ Line.Failed → Rose (I.failures input.old) (I.failures input.new) }
    ensures steady { (result ≡ Line.Failed → ⊥) → I.failures input.new ≡ I.failures input.old }
{
    if reader.over {
        return Line::Eof;
    }
    reader.lines = reader.lines.saturating_add(1);
    let line = read_line(alloc, reader.lines, input);
    reader.over = is_last(&line);
    line
}

fn is_last(line: &Line) -> bool
    ensures { result ≡ ends line.now }
{
    matches!(
        line,
        Line::End | Line::Eof | Line::Bad(_, _) | Line::Failed | Line::Memory
    )
}

// The line that comes next, which has this number.
fn read_line<I: ByteSource>(alloc: Global, number: u64, input: &mut I) -> Line
    ensures line { (text : List ℕ) → I.left input.old ≡ Some text →
        ReadsFirst number text result (I.left input.new) }
    ensures bad { BearsNumber number result }
    ensures time { IsInTime result }
    ensures later { I.failures input.old ≤ I.failures input.new }
    ensures failed { result ≡ Line.Failed → Rose (I.failures input.old) (I.failures input.new) }
    ensures steady { (result ≡ Line.Failed → ⊥) → I.failures input.new ≡ I.failures input.old }
{
    let raw = match read_raw_line(alloc, input) {
        Ok(Some(raw)) => raw,
        Ok(None) => return Line::Bad(number, ScriptKind::LongLine),
        Err(ReadError::Failed) => return Line::Failed,
        Err(ReadError::Memory) => return Line::Memory,
    };
    if raw.is_nothing() {
        return Line::Eof;
    }
    match read_head(alloc, raw.content()) {
        Ok(head) => finish(alloc, number, head, input),
        Err(Memory) => Line::Memory,
    }
}

// The line that a head begins.
fn finish<I: ByteSource>(alloc: Global, number: u64, head: Head, input: &mut I) -> Line
    requires { HasTime head }
    ensures line { (text : List ℕ) → I.left input.old ≡ Some text →
        ReadsRest number head text result (I.left input.new) }
    ensures bad { BearsNumber number result }
    ensures time { IsInTime result }
    ensures later { I.failures input.old ≤ I.failures input.new }
    ensures failed { result ≡ Line.Failed → Rose (I.failures input.old) (I.failures input.new) }
    ensures steady { (result ≡ Line.Failed → ⊥) → I.failures input.new ≡ I.failures input.old }
{
    match head {
        Head::Scan => Line::Scan,
        Head::Build => Line::Build,
        Head::Links => Line::Links,
        Head::End => Line::End,
        Head::Delete(path) => Line::Delete(path),
        Head::Time(seconds) => Line::Time(seconds),
        Head::Bad(kind) => Line::Bad(number, kind),
        Head::Put(path, count) => match read_body(alloc, count as usize, input) {
            Ok(Some(bytes)) => Line::Put(path, FileBytes::from_vec(bytes)),
            Ok(None) => Line::Bad(number, ScriptKind::Cut),
            Err(ReadError::Failed) => Line::Failed,
            Err(ReadError::Memory) => Line::Memory,
        },
    }
}
