// What is said to a person, as rows: the line for each kind of thing that can be wrong.
use folder_walk::Reason;
use site_base::{FaultKind, SiteFault, SitePath, YamlKind};
use site_script::ScriptKind;
use site_sentences::{Failure, failure_line, fault_line, obstacle_line, script_line, usage_lines};
use site_words::UsageKind;
use std::alloc::Global;

// Whether the line for a fault at this file and line is the wanted one.
fn is_fault_line(alloc: Global, path: &str, line: u64, kind: FaultKind, wanted: &str) -> bool {
    let Ok(path) = SitePath::read(alloc, path) else {
        return false;
    };
    match fault_line(alloc, &SiteFault { path, line, kind }) {
        Ok(text) => text.as_str() == wanted,
        Err(_) => false,
    }
}

// Whether the line for a bad line is the wanted one.
fn is_script_line(alloc: Global, number: u64, kind: ScriptKind, wanted: &str) -> bool {
    match script_line(alloc, number, kind) {
        Ok(text) => text.as_str() == wanted,
        Err(_) => false,
    }
}

fn is_failure_line(alloc: Global, failure: Failure, wanted: &str) -> bool {
    match failure_line(alloc, failure) {
        Ok(text) => text.as_str() == wanted,
        Err(_) => false,
    }
}

// Whether the line for what stopped a call at a place is the wanted one.
fn is_obstacle_line(
    alloc: Global,
    failure: Failure,
    place: &str,
    reason: Reason,
    wanted: &str,
) -> bool {
    match obstacle_line(alloc, failure, place, reason) {
        Ok(text) => text.as_str() == wanted,
        Err(_) => false,
    }
}

// Whether the text for a wrong command line has this line first and commands behind it.
fn begins_usage(alloc: Global, kind: UsageKind, wanted: &str) -> bool {
    match usage_lines(alloc, kind) {
        Ok(text) => {
            let lines = text.as_str();
            lines.starts_with(wanted) && lines.ends_with("in memory, twice\n")
        }
        Err(_) => false,
    }
}

#[test]
fn faults_with_and_without_lines(rt: HostRuntime) {
    let alloc = rt.alloc();
    assert!(rt;
        is_fault_line(
            alloc,
            "_posts/2024-01-02-x.md",
            3,
            FaultKind::UnknownTag,
            "sitebuild: _posts/2024-01-02-x.md:3: no tag has this name; check the spelling (F11)\n"
        )
    );
    assert!(rt;
        is_fault_line(
            alloc,
            "big",
            0,
            FaultKind::FileTooLong,
            "sitebuild: big: the file is larger than 16 MiB; take it out of the site, and serve it from elsewhere (F2)\n"
        )
    );
    assert!(rt;
        is_fault_line(
            alloc,
            "a b.html",
            18_446_744_073_709_551_615,
            FaultKind::Yaml(YamlKind::Tab),
            "sitebuild: a b.html:18446744073709551615: a tab is used for indentation, where YAML allows only spaces; use spaces (F5)\n"
        )
    );
}

#[test]
fn lines_of_a_session(rt: HostRuntime) {
    assert!(rt;
        is_script_line(
            rt.alloc(),
            7,
            ScriptKind::NotText,
            "sitebuild: standard input:7: the line is not UTF-8; write it as UTF-8 (script 2)\n"
        )
    );
}

#[test]
fn runs_that_were_cut_short(rt: HostRuntime) {
    let alloc = rt.alloc();
    assert!(rt;
        is_failure_line(
            alloc,
            Failure::Writes(12),
            "sitebuild: files of _site could not be written or removed; check their permissions and the free space on the disk, and build again (status 4, paths: 12)\n"
        )
    );
    assert!(rt;
        is_failure_line(
            alloc,
            Failure::Input,
            "sitebuild: standard input cannot be read; check where it comes from (status 5)\n"
        )
    );
}

#[test]
fn places_that_stopped_a_run(rt: HostRuntime) {
    let alloc = rt.alloc();
    assert!(rt;
        is_obstacle_line(
            alloc,
            Failure::Source,
            "a\tb/\u{9b}31m\u{e9}",
            Reason::NotUtf8,
            "sitebuild: a?b/?31m\u{e9}: a name in this folder is not UTF-8; rename it (status 3)\n"
        )
    );
    assert!(rt;
        is_obstacle_line(
            alloc,
            Failure::Writes(3),
            "_site/a",
            Reason::Unwritable,
            "sitebuild: _site/a: this cannot be written or removed; check its permissions and those of its folder, and build again (status 4, paths: 3)\n"
        )
    );
}

#[test]
fn commands_behind_a_wrong_command_line(rt: HostRuntime) {
    let alloc = rt.alloc();
    assert!(rt;
        begins_usage(
            alloc,
            UsageKind::Command,
            "sitebuild: the first word is not a command; give one of the commands below (usage 2)\n  sitebuild once "
        )
    );
    assert!(rt;
        begins_usage(
            alloc,
            UsageKind::Moment,
            "sitebuild: the clock cannot be read, or is before 1970 or after the year 9999; set the clock (usage 5)\n"
        )
    );
}
