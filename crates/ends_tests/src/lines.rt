// The lines of whole scripts, each as a short text: inputs that give their bytes in pieces, or fail, and what of an input is left.
ghost use Rattle.std.specs.Prelude.{None};

use site_base::{ByteSource, Failed, MemoryInput};
use site_script::{Line, ScriptReader, StdInput, next_line};
use std::alloc::{AllocError, Allocator, Global};
use std::cell::Cell;
use std::io;
use std::io::{BufRead, ErrorKind, Read};
use std::rt::Clock;
use std::time::Duration;

// An input that gives no more than so many bytes at first, and then the others.
#[derive(Drop)]
struct CutInput {
    bytes: Vec<u8>,
    place: usize,
    cut: usize,
}

impl ByteSource for CutInput {
    ghost left = { λ _. None };

    ghost failures = { λ _. 0 };

    fn read(&mut self, into: &mut [u8]) -> Result<usize, Failed> {
        let end = if self.place < self.cut {
            self.cut
        } else {
            self.bytes.len()
        };
        let rest = self.bytes.get(self.place..end).unwrap_or(&[]);
        let count = into.len().min(rest.len());
        into[..count].copy_from_slice(&rest[..count]);
        self.place = self.place.saturating_add(count);
        Ok(count)
    }
}

fn shown(alloc: Global, line: &Line) -> Result<String, AllocError> {
    match line {
        Line::Scan => format!(in alloc; "scan"),
        Line::Build => format!(in alloc; "build"),
        Line::Links => format!(in alloc; "links"),
        Line::End => format!(in alloc; "end"),
        Line::Eof => format!(in alloc; "eof"),
        Line::Failed => format!(in alloc; "failed"),
        Line::Memory => format!(in alloc; "memory"),
        Line::Time(seconds) => format!(in alloc; "time {seconds}"),
        Line::Delete(path) => {
            let path = path.text();
            format!(in alloc; "delete {path}")
        }
        Line::Put(path, bytes) => {
            let path = path.text();
            let bytes = bytes.as_slice();
            format!(in alloc; "put {path} {bytes:?}")
        }
        Line::Bad(number, kind) => {
            let kind = kind.number();
            format!(in alloc; "bad {number} {kind}")
        }
    }
}

// All lines of an input, up to the second that is the end.
fn all_lines<I: ByteSource>(alloc: Global, input: &mut I) -> Result<String, AllocError> {
    let mut reader = ScriptReader::new();
    let mut lines = String::new(alloc);
    for _ in 0..20 {
        let line = next_line(alloc, &mut reader, input);
        lines.push_str(shown(alloc, &line)?.as_str())?;
        if let Line::Eof = line {
            return Ok(lines);
        }
        lines.push_str(", ")?;
    }
    Ok(lines)
}

fn lines_of(alloc: Global, script: &[u8]) -> Result<String, AllocError> {
    let mut input = MemoryInput::new(script.to_vec(alloc)?, Vec::new(alloc));
    all_lines(alloc, &mut input)
}

// Whether a script has these lines.
fn has_lines(alloc: Global, script: &[u8], lines: &str) -> bool {
    match lines_of(alloc, script) {
        Ok(told) => told.as_str() == lines,
        Err(_) => false,
    }
}

// A script with a line of each form, and one that ends at a line that is none.
const SCRIPTS: &[(&str, &str)] = &[
    (
        "scan\nput a b.md 3\r\na\nbbuild\ntime 253402214399\ndelete a b.md\nend\nscan\n",
        "scan, put a b.md [97, 10, 98], build, time 253402214399, delete a b.md, end, eof",
    ),
    ("put a 3\n\n\n\nx\n", "put a [10, 10, 10], bad 2 3, eof"),
];

fn have_lines(alloc: Global, scripts: &[(&str, &str)]) -> bool {
    scripts.iter().all(|(script, lines)| has_lines(alloc, script.as_bytes(), lines))
}

#[test]
fn reads_lines(rt: HostRuntime) {
    assert!(rt; have_lines(rt.alloc(), SCRIPTS));
}

const SESSION: &[u8] =
    b"put index.html 44\n---\ntitle: Hi\n---\n<h1>{{ page.title }}</h1>\nbuild\nbuild\nend\n";

fn lines_at_cut(alloc: Global, cut: usize) -> Result<String, AllocError> {
    let mut input = CutInput {
        bytes: SESSION.to_vec(alloc)?,
        place: 0,
        cut,
    };
    all_lines(alloc, &mut input)
}

fn is_read_at_cut(alloc: Global, cut: usize, lines: &str) -> bool {
    match lines_at_cut(alloc, cut) {
        Ok(told) => told.as_str() == lines,
        Err(_) => false,
    }
}

#[test]
fn reads_the_same_at_every_cut(rt: HostRuntime) {
    match lines_of(rt.alloc(), SESSION) {
        Ok(whole) => {
            let whole = whole.as_str();
            assert!(rt; whole.starts_with("put index.html [45, 45, 45, 10, 116,"));
            assert!(rt; whole.ends_with("49, 62, 10], build, build, end, eof"));
            assert!(rt; (0..SESSION.len()).all(|cut| is_read_at_cut(rt.alloc(), cut, whole)));
        }
        Err(_) => assert!(rt; false, "no lines"),
    }
}

// The call that fails, and what is read. Each byte of a line is one call, and so is a body, and the end.
const FAILING_CALLS: &[(u64, &str)] = &[
    (1, "failed, eof"),
    (5, "failed, eof"),
    (6, "scan, failed, eof"),
    (14, "scan, failed, eof"),
    (15, "scan, put a [120, 121], failed, eof"),
    (20, "scan, put a [120, 121], failed, eof"),
    (21, "scan, put a [120, 121], build, failed, eof"),
];

fn lines_failing_at(alloc: Global, call: u64) -> Result<String, AllocError> {
    let script = b"scan\nput a 2\nxybuild".to_vec(alloc)?;
    let mut input = MemoryInput::new(script, vec![in alloc; call]?);
    all_lines(alloc, &mut input)
}

fn are_stopped(alloc: Global, rows: &[(u64, &str)]) -> bool {
    rows.iter().all(|(call, lines)| match lines_failing_at(alloc, *call) {
        Ok(told) => told.as_str() == *lines,
        Err(_) => false,
    })
}

#[test]
fn stops_where_the_input_fails(rt: HostRuntime) {
    assert!(rt; are_stopped(rt.alloc(), FAILING_CALLS));
}

// The next line, and its number.
const TO_THE_END: &[(&str, u64)] = &[("scan", 1), ("end", 2), ("eof", 2), ("eof", 2)];

fn is_next(
    alloc: Global,
    reader: &mut ScriptReader,
    input: &mut MemoryInput,
    text: &str,
    number: u64,
) -> bool {
    let line = next_line(alloc, reader, input);
    match shown(alloc, &line) {
        Ok(told) => told.as_str() == text && reader.number() == number,
        Err(_) => false,
    }
}

fn leave_five_bytes(alloc: Global, rows: &[(&str, u64)]) -> bool {
    let Ok(script) = b"scan\nend\nscan\n".to_vec(alloc) else {
        return false;
    };
    let mut input = MemoryInput::new(script, Vec::new(alloc));
    let mut reader = ScriptReader::new();
    for (text, number) in rows {
        if !is_next(alloc, &mut reader, &mut input, text, *number) {
            return false;
        }
    }
    input.len() == 5
}

#[test]
fn leaves_what_follows_the_end(rt: HostRuntime) {
    assert!(rt; ScriptReader::new().number() == 0);
    assert!(rt; leave_five_bytes(rt.alloc(), TO_THE_END));
}

#[test]
fn reads_standard_input(rt: HostRuntime) {
    let mut input = StdInput::new(rt);
    assert_eq!(rt; input.read(&mut [0; 4]), Ok(0));
}

// What a read of an input finds.
#[derive(Clone, Copy)]
enum Piece {
    Bytes(&'static [u8]),
    // nothing yet, in an input that does not wait
    NotYet,
    Failure,
}

// What the reads of an input find one after another.
const PIECES: [Piece; 8] = [
    Piece::Bytes(b"sc"),
    Piece::NotYet,
    Piece::NotYet,
    Piece::Bytes(b"an\nput a 4\nx"),
    Piece::Bytes(b"yz"),
    Piece::Bytes(b"\nbuil"),
    Piece::Failure,
    Piece::Bytes(b"d"),
];

// An input whose reads give pieces.
#[derive(Drop)]
struct PieceInput {
    turn: Cell<usize>,
}

impl Read for Piece {
    fn read(&mut self, into: &mut [u8]) -> io::Result<usize> {
        match self {
            Piece::Bytes(bytes) => {
                let count = into.len().min(bytes.len());
                into[..count].copy_from_slice(&bytes[..count]);
                Ok(count)
            }
            Piece::NotYet => Err(io::Error::from(ErrorKind::WouldBlock)),
            Piece::Failure => Err(io::Error::from(ErrorKind::Other)),
        }
    }
}

impl BufRead for Piece {
    fn fill_buf(&mut self) -> io::Result<&[u8]> {
        Ok(&[])
    }

    fn consume(&mut self, _amount: usize) {}
}

// It pauses for no time.
impl Clock for PieceInput {
    fn monotonic(&self) -> io::Result<Duration> {
        Err(io::Error::from(ErrorKind::Unsupported))
    }

    fn since_1970(&self) -> io::Result<Duration> {
        Err(io::Error::from(ErrorKind::Unsupported))
    }
}

impl Input for PieceInput {
    type Reader = Piece;

    fn read_line<A: Allocator + Clone>(&self, _buf: &mut String<A>) -> io::Result<usize> {
        Ok(0)
    }

    fn lines<A: Allocator>(&self, alloc: A) -> io::Lines<Piece, A> {
        self.reader().lines(alloc)
    }

    fn reader(&self) -> Piece {
        let turn = self.turn.get();
        self.turn.set(turn.saturating_add(1));
        PIECES.get(turn).copied().unwrap_or(Piece::Bytes(&[]))
    }
}

#[test]
fn reads_pieces_of_standard_input(rt: HostRuntime) {
    let mut input = StdInput::new(PieceInput { turn: Cell::new(0) });
    match all_lines(rt.alloc(), &mut input) {
        Ok(lines) => assert!(rt; lines.as_str() == "scan, put a [120, 121, 122, 10], failed, eof"),
        Err(_) => assert!(rt; false, "no lines"),
    }
    let mut next = [0; 2];
    assert!(rt; input.read(&mut next) == Ok(1) && next == [b'd', 0]);
}
