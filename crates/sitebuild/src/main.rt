// The program: builds the site of the current folder into `_site`.
#![tactic(auto)]

mod telling;

use crate::telling::{end, in_file};
use out_tree::DiskOut;
use page_render::PageRenderer;
use read_record::Tally;
use site_base::Words;
use site_program::{Status, StdSink, run_jobs, run_once};
use site_script::StdInput;
use source_tree::DiskSource;
use std::env;
use std::io::ErrorKind;
use std::process::ExitCode;
use std::time::SystemTime;

// What stands for a clock that cannot be read, or stands before 1970: no moment of a build.
const NO_MOMENT: i64 = -1;

fn main(rt: HostRuntime) -> ExitCode {
    let words = match words(&rt) {
        Ok(words) => words,
        Err(status) => return end(&rt, &Words::new(rt.alloc()), status, None),
    };
    let mut source = DiskSource::new(rt);
    let mut out = DiskOut::new(rt);
    let mut sink = StdSink::new(rt);
    let renderer = PageRenderer::new(rt.alloc());
    let mut tally = Tally::new(rt.alloc());
    let status = if is_for_jobs(&words) {
        run_jobs(
            &rt,
            rt.alloc(),
            &words,
            moment(&rt),
            &mut source,
            &mut out,
            &mut StdInput::new(rt),
            &mut sink,
            &renderer,
            &mut tally,
        )
    } else {
        run_once(
            rt.alloc(),
            &words,
            moment(&rt),
            &mut source,
            &mut out,
            &mut sink,
        )
    };
    let status = in_file(rt.alloc(), &mut source, status);
    let obstacle = match &status {
        Status::SourceFault => source.obstacle(),
        Status::OutFault(_) => out.obstacle(),
        _ => None,
    };
    end(&rt, &words, status, obstacle)
}

// The words of the command line, without the program's name. Where one is no text there are none, which is told as no command.
fn words(rt: &HostRuntime) -> Result<Words, Status> {
    let arguments = match env::args(rt) {
        Ok(arguments) => arguments,
        Err(error) if error.kind() == ErrorKind::OutOfMemory => return Err(Status::Memory),
        Err(_) => return Ok(Words::new(rt.alloc())),
    };
    let mut words = Words::new(rt.alloc());
    for word in arguments.skip(1) {
        if words.push(rt.alloc(), word.as_str()).is_err() {
            return Err(Status::Memory);
        }
    }
    Ok(words)
}

// Whether the words ask for a command that takes its time: a build, or a session.
fn is_for_jobs(words: &Words) -> bool {
    !words.is_empty() && matches!(words.at(0), "build" | "session")
}

// The moment of the clock, in seconds from 1970.
fn moment(rt: &HostRuntime) -> i64 {
    let Ok(now) = SystemTime::now(rt) else {
        return NO_MOMENT;
    };
    match now.duration_since(SystemTime::UNIX_EPOCH) {
        Ok(since) => i64::try_from(since.as_secs()).unwrap_or(NO_MOMENT),
        Err(_) => NO_MOMENT,
    }
}
