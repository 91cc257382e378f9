// The lines that a person reads: where something is wrong, the sentence, and its code.
ghost use Rattle.std.specs.Prelude.{◌≡◌, IfOk};
ghost use Rattle.std.specs.String.{string_bytes};
ghost use Rattle.site_sentences.specs.Shown.{shown};
ghost use Rattle.site_sentences.specs.Lines.{ObstacleSays, FailureSays, FaultSays, ScriptSays, UsageSays, failure_code, fault_code, file_place, input_place, line_of, script_code, usage_code};

use crate::Failure;
use crate::sentences::{
    failure_sentence, fault_sentence, reason_sentence, script_sentence, usage_sentence,
};
use crate::showing::shown;
use folder_walk::Reason;
use site_base::SiteFault;
use site_script::ScriptKind;
use site_words::UsageKind;
use std::alloc::{AllocError, Global};

// The commands, as a person is told them.
pub(crate) const COMMANDS: &str =
    "  sitebuild once    [--drafts] [--future]                     builds the site of this folder into _site
  sitebuild check   [--drafts] [--future]                     reports its first fault, and writes nothing
  sitebuild build   [--drafts] [--future] [--jobs N] [--why]  like once; N is from 1 to 64, --why says why a page was made
  sitebuild session [--drafts] [--future] [--jobs N] [--why]  carries out the lines of a script on standard input
  sitebuild make NUMBER COUNT                                 builds a made-up site of COUNT posts in memory, twice
";

/// The line for a fault: `sitebuild: PATH:LINE: SENTENCE (FK)`, without `:LINE` where the kind has no line, and with a question mark for each control character
/// of the path.
pub fn fault_line(alloc: Global, fault: &SiteFault) -> Result<String, AllocError>
    ensures { IfOk result (λ text. FaultSays fault.now (string_bytes text)) }
{
    let place = file_place(alloc, fault.path.text(), fault.line)?;
    let code = fault_code(alloc, fault)?;
    line(
        alloc,
        place.as_str(),
        fault_sentence(fault.kind),
        code.as_str(),
    )
}

/// The line for a command line that is wrong, and behind it the commands.
pub fn usage_lines(alloc: Global, kind: UsageKind) -> Result<String, AllocError>
    ensures { IfOk result (λ text. UsageSays kind (string_bytes text)) }
{
    let code = usage_code(alloc, kind)?;
    let mut text = line(alloc, "", usage_sentence(kind), code.as_str())?;
    text.push_str(COMMANDS)?;
    Ok(text)
}

/// The line for a bad line of a session, which has this number.
pub fn script_line(alloc: Global, number: u64, kind: ScriptKind) -> Result<String, AllocError>
    ensures { IfOk result (λ text. ScriptSays number kind (string_bytes text)) }
{
    let place = input_place(alloc, number)?;
    let code = script_code(alloc, kind)?;
    line(alloc, place.as_str(), script_sentence(kind), code.as_str())
}

/// The line for a run that was cut short.
pub fn failure_line(alloc: Global, failure: Failure) -> Result<String, AllocError>
    ensures { IfOk result (λ text. FailureSays failure (string_bytes text)) }
{
    let code = failure_code(alloc, failure)?;
    line(alloc, "", failure_sentence(failure), code.as_str())
}

/// The line for a run that was cut short at a place of a folder, when the reason is known.
pub fn obstacle_line(
    alloc: Global,
    failure: Failure,
    place: &str,
    reason: Reason,
) -> Result<String, AllocError>
    ensures { IfOk result (λ text. ObstacleSays failure place.now (string_bytes text)) }
{
    let place = file_place(alloc, place, 0)?;
    let code = failure_code(alloc, failure)?;
    line(
        alloc,
        place.as_str(),
        reason_sentence(reason),
        code.as_str(),
    )
}

// A line of its parts; a place that is not empty ends with `: `.
fn line(alloc: Global, place: &str, sentence: &str, code: &str) -> Result<String, AllocError>
    ensures { IfOk result (λ text. string_bytes text ≡ line_of place.now sentence.now code.now) }
{
    format!(in alloc; "sitebuild: {place}{sentence} ({code})\n")
}

fn file_place(alloc: Global, path: &str, number: u64) -> Result<String, AllocError>
    ensures { IfOk result (λ text. string_bytes text ≡ file_place (shown path.now) number) }
{
    let path = shown(alloc, path)?;
    if number == 0 {
        format!(in alloc; "{path}: ")
    } else {
        format!(in alloc; "{path}:{number}: ")
    }
}

fn input_place(alloc: Global, number: u64) -> Result<String, AllocError>
    ensures { IfOk result (λ text. string_bytes text ≡ input_place number) }
{
    format!(in alloc; "standard input:{number}: ")
}

fn fault_code(alloc: Global, fault: &SiteFault) -> Result<String, AllocError>
    ensures { IfOk result (λ text. string_bytes text ≡ fault_code fault.now) }
{
    let number = fault.kind.number();
    format!(in alloc; "F{number}")
}

fn usage_code(alloc: Global, kind: UsageKind) -> Result<String, AllocError>
    ensures { IfOk result (λ text. string_bytes text ≡ usage_code kind) }
{
    let number = kind.number();
    format!(in alloc; "usage {number}")
}

fn script_code(alloc: Global, kind: ScriptKind) -> Result<String, AllocError>
    ensures { IfOk result (λ text. string_bytes text ≡ script_code kind) }
{
    let number = kind.number();
    format!(in alloc; "script {number}")
}

fn failure_code(alloc: Global, failure: Failure) -> Result<String, AllocError>
    ensures { IfOk result (λ text. string_bytes text ≡ failure_code failure) }
{
    let number = failure.number();
    match failure {
        Failure::Writes(count) => format!(in alloc; "status {number}, paths: {count}"),
        _ => format!(in alloc; "status {number}"),
    }
}
