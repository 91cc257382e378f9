// What a session replies to a line.
ghost use Rattle.std.specs.Prelude.{◌≡◌, ◌++◌, ◌∷◌, [], IfOk, OnOk, Ok, Some, codes, length, flat_map};
ghost use Rattle.std.specs.Fmt.{decimal};
ghost use Rattle.std.specs.String.{string_bytes};
ghost use Rattle.site_script.specs.Line.{script_number};
ghost use Rattle.site_session.specs.Bytes.{broken_line, fault_line, built_line, links_lines, marked_line, reason_text, why_line, why_lines};

use crate::key_text::{item_text, key_text};
use crate::{LinkReport, Rebuilt, Report, Why};
use link_check::Broken;
use read_record::Key;
use site_base::{PathList, SiteFault};
use site_script::ScriptKind;
use site_sentences::shown;
use std::alloc::{AllocError, Global};

/// What a session replies to a line.
#[derive(Drop)]
pub enum Reply {
    /// The source was scanned, and has so many files.
    Scanned(u32),
    /// The source failed.
    ScanFailed,
    /// The site has this first fault.
    Faulty(SiteFault),
    /// The line was done.
    Fine,
    /// No file of that path was held.
    Absent,
    Built(Report),
    /// The writes and removals of these paths failed.
    Marked(PathList),
    /// The output gave no list of its files.
    Unlisted,
    /// The line of this number is bad, and the session ends.
    BadLine(u64, ScriptKind),
    /// The links of what is believed of the output.
    Links(LinkReport),
    /// A line that has no reply.
    Silent,
}

impl Reply {
    ghost use Rattle.site_session.specs.Bytes.{reply_bytes};
    ghost use Rattle.site_session.specs.Replies.{built_reply};

    /// The reply to a build that ended so.
    pub fn of_build(rebuilt: Rebuilt) -> Reply
        ensures { built_reply (Ok rebuilt) ≡ Some result }
    {
        match rebuilt {
            Rebuilt::Built(report) => Reply::Built(report),
            Rebuilt::Fault(fault) => Reply::Faulty(fault),
            Rebuilt::Marked(paths) => Reply::Marked(paths),
            Rebuilt::Unlisted => Reply::Unlisted,
        }
    }

    /// The bytes of the reply, each line with its end. Where reasons are told, those of a build stand before it.
    pub fn text(&self, alloc: Global, tells_why: bool) -> Result<String, AllocError>
        ensures { IfOk result (λ text. string_bytes text ≡ reply_bytes tells_why self.now) }
    {
        match self {
            Reply::Scanned(count) => format!(in alloc; "scanned {count}\n"),
            Reply::ScanFailed => String::from_str(alloc, "scan-fault\n"),
            Reply::Faulty(fault) => fault_text(alloc, fault),
            Reply::Fine => String::from_str(alloc, "ok\n"),
            Reply::Absent => String::from_str(alloc, "absent\n"),
            Reply::Built(report) => built_text(alloc, report, tells_why),
            Reply::Marked(paths) => marked_text(alloc, paths),
            Reply::Unlisted => String::from_str(alloc, "out-fault 0\n"),
            Reply::BadLine(number, kind) => bad_line_text(alloc, *number, *kind),
            Reply::Links(report) => links_text(alloc, report),
            Reply::Silent => Ok(String::new(alloc)),
        }
    }
}

fn fault_text(alloc: Global, fault: &SiteFault) -> Result<String, AllocError>
    ensures { IfOk result (λ text. string_bytes text ≡ fault_line fault.now) }
{
    let kind = fault.kind.number();
    let line = fault.line;
    let path = fault.path.text();
    format!(in alloc; "fault F{kind} {line} {path}\n")
}

fn built_text(alloc: Global, report: &Report, tells_why: bool) -> Result<String, AllocError>
    ensures { IfOk result (λ text. string_bytes text ≡ why_lines tells_why report.now ++ built_line report.now) }
{
    let mut text = why_text(alloc, report, tells_why)?;
    text.push_str(counts_text(alloc, report)?.as_str())?;
    Ok(text)
}

fn counts_text(alloc: Global, report: &Report) -> Result<String, AllocError>
    ensures { IfOk result (λ text. string_bytes text ≡ built_line report.now) }
{
    let rendered = report.rendered;
    let reused = report.reused;
    let written = report.written;
    let removed = report.removed;
    format!(in alloc;
        "built rendered={rendered} reused={reused} written={written} removed={removed}\n"
    )
}

fn why_text(alloc: Global, report: &Report, tells_why: bool) -> Result<String, AllocError>
    ensures { IfOk result (λ text. string_bytes text ≡ why_lines tells_why report.now) }
{
    let mut text = String::new(alloc);
    if tells_why {
        push_reasons(alloc, &mut text, report.why.as_slice())?;
    }
    Ok(text)
}

fn push_reasons(alloc: Global, text: &mut String, why: &[Why]) -> Result<(), AllocError>
    ensures { OnOk result (string_bytes text.new ≡ string_bytes text.old ++ flat_map why_line why.now) }
{
    for one in why {
        text.push_str(why_line(alloc, one)?.as_str())?;
    }
    Ok(())
}

fn why_line(alloc: Global, why: &Why) -> Result<String, AllocError>
    ensures { IfOk result (λ text. string_bytes text ≡ why_line why.now) }
{
    let name = item_text(alloc, &why.name)?;
    let reason = reason_text(alloc, &why.key)?;
    let told = format!(in alloc; "{name} {reason}")?;
    let told = shown(alloc, told.as_str())?;
    format!(in alloc; "why {told}\n")
}

fn reason_text(alloc: Global, key: &Option<Key>) -> Result<String, AllocError>
    ensures { IfOk result (λ text. string_bytes text ≡ reason_text key.now) }
{
    match key {
        None => String::from_str(alloc, "new"),
        Some(key) => key_text(alloc, key),
    }
}

fn marked_text(alloc: Global, paths: &PathList) -> Result<String, AllocError>
    ensures { IfOk result (λ text. string_bytes text ≡ codes "out-fault " ++ (decimal (length paths.now) ++ (codes "\n" ++ flat_map marked_line paths.now))) }
{
    let paths = paths.as_slice();
    let count = paths.len();
    let mut text = format!(in alloc; "out-fault {count}\n")?;
    for path in paths {
        text.push_str("marked ")?;
        text.push_str(path.text())?;
        text.push('\n')?;
    }
    Ok(text)
}

fn bad_line_text(alloc: Global, number: u64, kind: ScriptKind) -> Result<String, AllocError>
    ensures { IfOk result (λ text. string_bytes text ≡ codes "script " ++ (decimal number ++ (codes " " ++ (decimal (script_number kind) ++ codes "\n")))) }
{
    let kind = kind.number();
    format!(in alloc; "script {number} {kind}\n")
}

fn links_text(alloc: Global, report: &LinkReport) -> Result<String, AllocError>
    ensures { IfOk result (λ text. string_bytes text ≡ links_lines report.now) }
{
    let broken = report.broken.as_slice();
    let count = broken.len();
    let scanned = report.scanned;
    let mut text = format!(in alloc; "links {count} scanned={scanned}\n")?;
    text.reserve(room_of(broken))?;
    for link in broken {
        push_broken(alloc, &mut text, link)?;
    }
    Ok(text)
}

// How many bytes the lines of these links have at most.
fn room_of(broken: &[Broken]) -> usize {
    let mut room: usize = 0;
    for link in broken {
        // Nine bytes are the word, the two spaces and the end of the line.
        room = room
            .saturating_add(link.from.text().len())
            .saturating_add(link.value.len())
            .saturating_add(9);
    }
    room
}

fn push_broken(alloc: Global, text: &mut String, link: &Broken) -> Result<(), AllocError>
    ensures { OnOk result (string_bytes text.new ≡ string_bytes text.old ++ broken_line link.now) }
{
    let value = shown(alloc, link.value.as_str())?;
    text.push_str("broken ")?;
    text.push_str(link.from.text())?;
    text.push(' ')?;
    text.push_str(value.as_str())?;
    text.push('\n')
}
