use out_tree::{DiskOut, OutTree};
use site_base::{ListError, SitePath};
use std::alloc::Global;
use std::fs::File;
use std::os::unix::fs::symlink;
use std::process::Abort;
use std::rt::Files;
use std::{fs, io};

const DESTINATION: &str = "_site";

// The paths that the output lists, each with a line end.
fn listed<R: Files<File = File> + AllocGlobal + Clone + Drop>(
    alloc: Global,
    out: &mut DiskOut<R>,
) -> Option<String> {
    let mut text = String::new(alloc);
    for path in out.list(alloc).ok()? {
        text.push_str(path.text()).ok()?;
        text.push('\n').ok()?;
    }
    Some(text)
}

fn lists<R: Files<File = File> + AllocGlobal + Clone + Drop>(
    alloc: Global,
    out: &mut DiskOut<R>,
    paths: &str,
) -> bool {
    match listed(alloc, out) {
        Some(text) => text.as_str() == paths,
        None => false,
    }
}

fn writes<R: Files<File = File> + AllocGlobal + Clone + Drop>(
    alloc: Global,
    out: &mut DiskOut<R>,
    path: &str,
    text: &str,
) -> bool {
    match SitePath::read(alloc, path) {
        Ok(path) => out.write(&path, text.as_bytes()).is_ok(),
        Err(_) => false,
    }
}

fn removes<R: Files<File = File> + AllocGlobal + Clone + Drop>(
    alloc: Global,
    out: &mut DiskOut<R>,
    path: &str,
) -> bool {
    match SitePath::read(alloc, path) {
        Ok(path) => out.remove(&path).is_ok(),
        Err(_) => false,
    }
}

fn holds<R: Files + AllocGlobal>(rt: &R, place: &str, text: &str) -> bool {
    match fs::read_to_string(rt, place) {
        Ok(found) => found.as_str() == text,
        Err(_) => false,
    }
}

fn stands<R: Files>(rt: &R, place: &str) -> bool {
    fs::symlink_metadata(rt, place).is_ok()
}

// What is done, or looked at, at a path.
#[derive(Clone, Copy)]
enum Step {
    // the output lists these paths, each with a line end
    Lists,
    FailsToList,
    Writes,
    FailsToWrite,
    Removes,
    // the file has this text
    Holds,
    Stands,
    Lacks,
    // what others do
    MakesFolder,
    MakesFile,
    // a symbolic link to this place
    MakesLink,
    RemovesFolder,
    RemovesFile,
}

static STEPS: [(Step, &str, &str); 41] = [
    // A destination that is not there has no files.
    (Step::Lists, "", ""),
    // A write makes the folders that it needs, and replaces what was there.
    (Step::Writes, "a/b/page.html", "old"),
    (Step::Writes, "a/other.html", "text"),
    (Step::Writes, "a/b/page.html", "new"),
    (Step::Lists, "", "a/b/page.html\na/other.html\n"),
    (Step::Holds, "_site/a/b/page.html", "new"),
    // A path that is a folder of a file, or lies below one, cannot be written.
    (Step::FailsToWrite, "a", "text"),
    (Step::FailsToWrite, "a/other.html/c", "text"),
    // A removal takes away the folders that it leaves empty, but not the destination.
    (Step::Removes, "a/b/page.html", ""),
    (Step::Removes, "a/b/page.html", ""),
    (Step::Lacks, "_site/a/b", ""),
    (Step::Lists, "", "a/other.html\n"),
    (Step::Removes, "a/other.html", ""),
    (Step::Lacks, "_site/a", ""),
    (Step::Stands, DESTINATION, ""),
    // An empty folder does not stand in the way.
    (Step::MakesFolder, "_site/a", ""),
    (Step::Writes, "a", "text"),
    (Step::Lists, "", "a\n"),
    (Step::MakesFolder, "_site/e", ""),
    (Step::MakesFolder, "_site/e/f", ""),
    (Step::Writes, "e", "text"),
    (Step::Removes, "e", ""),
    // What is Git's is no part of the output.
    (Step::MakesFile, "_site/.git", "its own"),
    (Step::FailsToWrite, ".git", "text"),
    (Step::FailsToWrite, "b/.git/config", "text"),
    (Step::Removes, ".git", ""),
    (Step::Holds, "_site/.git", "its own"),
    (Step::Lists, "", "a\n"),
    // Nothing is written or removed through a link, and one at a file's place is replaced.
    (Step::MakesLink, "_site/up", ".."),
    (Step::FailsToWrite, "up/outside", "text"),
    (Step::MakesFile, "outside", "its own"),
    (Step::Removes, "up/outside", ""),
    (Step::Holds, "outside", "its own"),
    (Step::Writes, "up", "text"),
    (Step::Removes, "up", ""),
    // A name that makes no path is a failure, and so is a destination that is a file.
    (Step::MakesFile, "_site/\u{1}", "text"),
    (Step::FailsToList, "", ""),
    (Step::RemovesFolder, DESTINATION, ""),
    (Step::MakesFile, DESTINATION, "text"),
    (Step::FailsToList, "", ""),
    (Step::RemovesFile, DESTINATION, ""),
];

// Whether the step comes out as its name says.
fn succeeds<R: Files<File = File> + AllocGlobal + Clone + Drop>(
    rt: &R,
    out: &mut DiskOut<R>,
    step: Step,
    path: &str,
    text: &str,
) -> bool {
    match step {
        Step::Lists => lists(rt.alloc(), out, text),
        Step::FailsToList => out.list(rt.alloc()).err() == Some(ListError::Failed),
        Step::Writes => writes(rt.alloc(), out, path, text),
        Step::FailsToWrite => !writes(rt.alloc(), out, path, text),
        Step::Removes => removes(rt.alloc(), out, path),
        Step::Holds => holds(rt, path, text),
        Step::Stands => stands(rt, path),
        Step::Lacks => !stands(rt, path),
        Step::MakesFolder => fs::create_dir(rt, path).is_ok(),
        Step::MakesFile => fs::write(rt, path, text.as_bytes()).is_ok(),
        Step::MakesLink => symlink(rt, text, path).is_ok(),
        Step::RemovesFolder => fs::remove_dir_all(rt, path).is_ok(),
        Step::RemovesFile => fs::remove_file(rt, path).is_ok(),
    }
}

#[test]
fn keeps_its_files_in_a_folder(rt: HostRuntime) -> io::Result<()> {
    let _ = fs::remove_dir_all(&rt, DESTINATION);
    let mut out = DiskOut::new(rt.clone()?);
    for (step, path, text) in &STEPS {
        assert!(rt;
            succeeds(&rt, &mut out, *step, path, text),
            "at {path} {text}"
        );
    }
    Ok(())
}
