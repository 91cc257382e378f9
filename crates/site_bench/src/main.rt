// The measured program: reads its standard input, and calls one library on it. `bench/` runs it.
#![tactic(auto)]

mod claims;
mod templates;

use cm_print::{HtmlError, to_html};
use data_files::{DataError, read_data};
use front_yaml::{YamlError, read_yaml};
use liquid_parse::{ParseError, parse};
use site_base::SitePath;
use site_config::{ConfigError, read_config};
use std::alloc::Global;
use std::io::Write;
use std::process::ExitCode;
use std::rt::Clock;
use std::thread::Threads;
use std::{env, io};
use templates::PageError;

// The status of a run whose input is refused, whose words are wrong, or that failed.
const REFUSED: u8 = 1;

const USAGE: u8 = 2;

const FAILED: u8 = 8;

fn main(rt: HostRuntime) -> ExitCode {
    let Ok(text) = io::read_to_string(rt.alloc(), rt.reader()) else {
        return ExitCode::from(FAILED);
    };
    let Ok(mut arguments) = env::args(&rt) else {
        return ExitCode::from(FAILED);
    };
    match arguments.nth(1) {
        Some(word) if word.as_str() == "claims" => {
            ExitCode::from(claim_times(&rt, rt.alloc(), text.as_str()))
        }
        Some(word) if word.as_str() == "evaluate-time" => {
            ExitCode::from(evaluate_time(&rt, rt.alloc(), text.as_str()))
        }
        Some(word) => ExitCode::from(status(rt, word.as_str(), text.as_str())),
        None => ExitCode::from(USAGE),
    }
}

// The status of what a word asks for.
fn status(rt: HostRuntime, word: &str, text: &str) -> u8 {
    match word {
        "nothing" => 0,
        "yaml" => yaml(rt, text),
        "config" => config(rt, text),
        "json" => data(rt, "_data/bench.json", text),
        "csv" => data(rt, "_data/bench.csv", text),
        "tsv" => data(rt, "_data/bench.tsv", text),
        "liquid" => liquid(rt, text),
        "evaluate" => evaluate(rt, text),
        "markdown" => markdown(rt, text),
        _ => USAGE,
    }
}

// The status of reading a YAML text.
fn yaml(rt: HostRuntime, text: &str) -> u8 {
    match read_yaml(rt.alloc(), text) {
        Ok(_) => 0,
        Err(YamlError::Fault(_)) => REFUSED,
        Err(YamlError::Memory) => FAILED,
    }
}

// The status of reading a configuration.
fn config(rt: HostRuntime, text: &str) -> u8 {
    match read_config(rt.alloc(), Some(text)) {
        Ok(_) => 0,
        Err(ConfigError::Memory) => FAILED,
        Err(_) => REFUSED,
    }
}

// The status of reading a data file.
fn data(rt: HostRuntime, path: &str, text: &str) -> u8 {
    let Ok(path) = SitePath::read(rt.alloc(), path) else {
        return FAILED;
    };
    match read_data(rt.alloc(), &path, text) {
        Ok(Some(_)) => 0,
        Err(DataError::Memory) => FAILED,
        _ => REFUSED,
    }
}

// The status of parsing a template.
fn liquid(rt: HostRuntime, text: &str) -> u8 {
    match parse(rt.alloc(), text) {
        Ok(_) => 0,
        Err(ParseError::Fault(_, _)) => REFUSED,
        Err(ParseError::Memory) => FAILED,
    }
}

// The status of evaluating the template of a page. The text that it comes to is written.
fn evaluate(rt: HostRuntime, page: &str) -> u8 {
    match templates::page_text(rt.alloc(), page) {
        Ok(text) => written(rt, text.as_str()),
        Err(error) => page_status(error),
    }
}

// The status of the same. The nanoseconds that parsing and evaluating the template took are written.
fn evaluate_time<R: Clock + Print>(rt: &R, alloc: Global, page: &str) -> u8 {
    let taken = match templates::timed(rt, alloc, page) {
        Ok(taken) => taken,
        Err(error) => return page_status(error),
    };
    match println!(rt; "{}", taken.as_nanos()) {
        Ok(()) => 0,
        Err(_) => FAILED,
    }
}

fn page_status(error: PageError) -> u8 {
    match error {
        PageError::Fault => REFUSED,
        PageError::Memory | PageError::Clock => FAILED,
    }
}

// The status of making the HTML of a Markdown text, which is written.
fn markdown(rt: HostRuntime, text: &str) -> u8 {
    match to_html(rt.alloc(), text, u64::MAX) {
        Ok(html) => written(rt, html.as_str()),
        Err(HtmlError::TooLong) => REFUSED,
        Err(HtmlError::Memory) => FAILED,
    }
}

// The status of as many threads' claims as the text says. The nanoseconds that they took and the claims that succeeded are written.
fn claim_times<R: Threads + Clock + Print + Sync>(rt: &R, alloc: Global, text: &str) -> u8 {
    let Ok(threads) = text.trim().parse::<u32>() else {
        return REFUSED;
    };
    let Some((taken, claimed)) = claims::timed(rt, alloc, threads) else {
        return FAILED;
    };
    match println!(rt; "{} {claimed}", taken.as_nanos()) {
        Ok(()) => 0,
        Err(_) => FAILED,
    }
}

fn written(rt: HostRuntime, text: &str) -> u8 {
    if io::writer(&rt).write_all(text.as_bytes()).is_err() {
        FAILED
    } else {
        0
    }
}
