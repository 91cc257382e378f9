// What the words of a command line order.
ghost use Rattle.std.specs.Prelude.{◌≡◌, ◌⊎◌, ◌++◌, ℕ, List, Some, IfOk, Ok, codes};
ghost use Rattle.std.specs.String.{string_bytes};
ghost use Rattle.site_base.specs.Ends.{Rose};
ghost use Rattle.site_script.specs.Line.{is_moment};
ghost use Rattle.site_words.specs.Words.{Answers};
ghost use Rattle.site_program.specs.Checks.{Said};
ghost use Rattle.site_program.specs.Usage.{knows, order_of, timed, usage_line};

use crate::status::Status;
use site_base::{ByteSink, LAST_MOMENT, Words};
use site_words::{Order, UsageKind, WordsError, read_words};
use std::alloc::{AllocError, Global};

// A top call, which knows some of the commands.
#[derive(Clone, Copy, Debug, PartialEq, Eq)]
pub(crate) enum TopCall {
    // `once`, `check` and `make`.
    Once,
    // `build` and `session`.
    Jobs,
}

impl TopCall {
    fn knows(self, word: &str) -> bool
        ensures { result ≡ knows self word.now }
    {
        match self {
            TopCall::Once => word == "once" || word == "check" || word == "make",
            TopCall::Jobs => word == "build" || word == "session",
        }
    }
}

// What the words of a top call order.
pub(crate) fn read_order(
    alloc: Global,
    words: &Words,
    call: TopCall,
    moment: i64,
) -> Result<Order, WordsError>
    ensures { Answers (order_of call words.now moment) result }
{
    if words.is_empty() {
        return Err(WordsError::Usage(UsageKind::Missing));
    }
    if !call.knows(words.at(0)) {
        return Err(WordsError::Usage(UsageKind::Command));
    }
    match read_words(alloc, words) {
        Ok(order) => timed(order, moment),
        Err(error) => Err(error),
    }
}

fn timed(order: Order, moment: i64) -> Result<Order, WordsError>
    ensures { Answers (timed moment (Ok order)) result }
{
    if is_moment(moment) {
        Ok(order)
    } else {
        Err(WordsError::Usage(UsageKind::Moment))
    }
}

fn is_moment(moment: i64) -> bool
    ensures { result ≡ is_moment moment }
{
    moment >= 0 && moment <= LAST_MOMENT
}

// Tells what is wrong with the words.
pub(crate) fn tell_usage<K: ByteSink>(alloc: Global, kind: UsageKind, sink: &mut K) -> Status
    ensures cases { (result ≡ Status.Usage kind) ⊎ ((result ≡ Status.SinkFault) ⊎ (result ≡ Status.Memory)) }
    ensures bytes { (before : List ℕ) → K.taken sink.old ≡ Some before → result ≡ Status.Usage kind →
        K.taken sink.new ≡ Some (before ++ usage_line kind) }
    ensures took { (before : List ℕ) → K.taken sink.old ≡ Some before → Said (usage_line kind) (Status.Usage kind) before (K.taken sink.new) result }
    ensures sink_fault { result ≡ Status.SinkFault → Rose (K.failures sink.old) (K.failures sink.new) }
{
    let Ok(text) = usage_text(alloc, kind) else {
        return Status::Memory;
    };
    match sink.write(text.as_bytes()) {
        Ok(()) => Status::Usage(kind),
        Err(_) => Status::SinkFault,
    }
}

fn usage_text(alloc: Global, kind: UsageKind) -> Result<String, AllocError>
    ensures { IfOk result (λ text. string_bytes text ≡ usage_line kind) }
{
    let number = kind.number();
    format!(in alloc; "usage {number}\n")
}
