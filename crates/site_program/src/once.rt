// One build from nothing.
ghost use Rattle.std.specs.Prelude.{◌≡◌, ℕ, List, [], Ok, Err, false};
ghost use Rattle.site_base.specs.declared.item_name.ItemName.{ItemName};
ghost use Rattle.site_base.specs.declared.settings.Settings.{Settings};
ghost use Rattle.site_session.specs.Session.{start};
ghost use Rattle.site_words.specs.declared.faults.UsageKind.{UsageKind};
ghost use Rattle.site_words.specs.declared.orders.Order.TheVariants as order;
ghost use Rattle.site_program.specs.Checks.{OneCheck};
ghost use Rattle.site_program.specs.Makes.{OneMake};
ghost use Rattle.site_program.specs.Once.{once_order};
ghost use Rattle.site_program.specs.OneBuild.{OneBuild};
ghost use Rattle.site_program.specs.Refused.{IsUsage};
ghost use Rattle.site_program.specs.Stages.{Blames, stage};

use crate::check::scan_and_check;
use crate::make::make;
use crate::one_build::build_one_by_one;
use crate::status::Status;
use crate::usage::{TopCall, read_order, tell_usage};
use out_tree::OutTree;
use page_render::PageRenderer;
use read_record::Tally;
use site_base::{ByteSink, Settings, Words};
use site_words::{Options, Order, WordsError};
use source_tree::SourceTree;
use std::alloc::Global;

/// The commands `once`, `check` and `make`. `once` scans the source and, where that answers a number, makes the output equal
/// to what its files stand for; `check` tells their first fault, or that they have none, and does not call the output; `make`
/// builds a made-up site in memory, edits a post of it and builds it again, and calls neither source nor output. It waits
/// for nobody and always returns.
pub fn run_once<S: SourceTree, O: OutTree, K: ByteSink>(
    alloc: Global,
    words: &Words,
    moment: i64,
    source: &mut S,
    out: &mut O,
    sink: &mut K,
) -> Status
    // `once` is one build from nothing. Its tally is its own, and nobody else sees it.
    ensures once { (settings : Settings) → once_order words.now moment ≡ Ok (order.Once settings) → let at = stage S.files S.failures O.contents O.calls O.failures K.taken K.failures in
        (names : List ItemName) × OneBuild (start settings moment) false (at source.old out.old [] sink.old) (at source.new out.new names sink.new) result }
    // `check` is one check, and leaves the output alone.
    ensures check { (settings : Settings) → once_order words.now moment ≡ Ok (order.Check settings) → let at = stage S.files S.failures O.contents O.calls O.failures K.taken K.failures in
        OneCheck (start settings moment) (at source.old out.old [] sink.old) (at source.new out.new [] sink.new) result }
    // `make` is two builds of a made-up site, which call neither source nor output.
    ensures make { (number count : ℕ) → once_order words.now moment ≡ Ok (order.Make number count) → let at = stage S.files S.failures O.contents O.calls O.failures K.taken K.failures in
        OneMake number count moment (at source.old out.old [] sink.old) (at source.new out.new [] sink.new) result }
    // The words alone decide about Usage.
    ensures usage { (kind : UsageKind) → once_order words.now moment ≡ Err kind → let at = stage S.files S.failures O.contents O.calls O.failures K.taken K.failures in
        IsUsage kind (at source.old out.old [] sink.old) (at source.new out.new [] sink.new) result }
    ensures only_usage { (kind : UsageKind) → result ≡ Status.Usage kind → once_order words.now moment ≡ Err kind }
    // Whatever the words and the ends tell, a failure is answered only where that end failed in this call.
    ensures blames { let at = stage S.files S.failures O.contents O.calls O.failures K.taken K.failures in
        Blames (at source.old out.old [] sink.old) (at source.new out.new [] sink.new) result }
{
    let renderer = PageRenderer::new(alloc);
    match read_order(alloc, words, TopCall::Once, moment) {
        Ok(order) => match order {
            Order::Once(settings) => {
                let options = Options {
                    jobs: 1,
                    settings,
                    why: false,
                };
                let mut tally = Tally::new(alloc);
                build_one_by_one(
                    alloc, options, moment, source, out, sink, &renderer, &mut tally,
                )
            }
            Order::Check(settings) => {
                scan_and_check(alloc, settings, moment, source, sink, &renderer)
            }
            Order::Make(number, count) => make(alloc, number, count, moment, sink, &renderer),
            _ => unreachable!(),
        },
        Err(WordsError::Usage(kind)) => tell_usage(alloc, kind, sink),
        Err(WordsError::Memory) => Status::Memory,
    }
}
