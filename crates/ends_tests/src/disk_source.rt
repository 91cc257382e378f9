// A scan of a real folder.
use site_base::SitePath;
use source_tree::{DiskSource, Held, ScanError, SourceTree};
use std::alloc::Global;
use std::{env, fs, io};

const FOLDER: &str = "disk_source_test";

const FOLDERS: &[&str] = &["below/.git", ".git", "_site", "sub/_site", "bad"];

const FILES: &[&str] = &[
    "below/file",
    "below/.git/x",
    ".git/x",
    "_site/y",
    "sub/_site/z",
    "top.md",
];

const SCANNED: &[&str] = &["below/file", "sub/_site/z", "top.md"];

fn make_files(rt: &HostRuntime) -> io::Result<()> {
    fs::create_dir_all(rt, FOLDER)?;
    env::set_current_dir(rt, FOLDER)?;
    for folder in FOLDERS {
        fs::create_dir_all(rt, *folder)?;
    }
    for path in FILES {
        fs::write(rt, *path, *path)?;
    }
    Ok(())
}

fn remove_files(rt: &HostRuntime) -> io::Result<()> {
    env::set_current_dir(rt, "..")?;
    fs::remove_dir_all(rt, FOLDER)
}

fn holds(alloc: Global, held: &Held, paths: &[&str]) -> bool {
    for path in paths {
        let Ok(site_path) = SitePath::read(alloc, path) else {
            return false;
        };
        if held.get(&site_path) != Some(path.as_bytes()) {
            return false;
        }
    }
    true
}

fn scans(alloc: Global, held: &mut Held, source: &mut DiskSource<HostRuntime>) -> bool {
    matches!(held.scan(alloc, source), Ok(3)) && holds(alloc, held, SCANNED)
}

// Whether a file is as long as its path, which is what it holds.
fn measures(alloc: Global, source: &mut DiskSource<HostRuntime>, path: &str) -> bool {
    match SitePath::read(alloc, path) {
        Ok(site_path) => source.measure(alloc, &site_path).ok() == Some(path.len()),
        Err(_) => false,
    }
}

// A name that is no path of a site.
fn fails_at_a_bad_name(
    rt: &HostRuntime,
    held: &mut Held,
    source: &mut DiskSource<HostRuntime>,
) -> bool {
    fs::write(rt, "bad/\u{1}", "").is_ok()
        && matches!(held.scan(rt.alloc(), source), Err(ScanError::Failed))
        && held.len() == 3
}

#[test]
fn scans_a_folder(rt: HostRuntime) {
    let made = make_files(&rt).is_ok();
    match rt.clone() {
        Ok(folder) => {
            let mut held = Held::new(rt.alloc());
            let mut source = DiskSource::new(folder);
            assert!(rt; made && scans(rt.alloc(), &mut held, &mut source));
            assert!(rt; measures(rt.alloc(), &mut source, "below/file"));
            assert!(rt; fails_at_a_bad_name(&rt, &mut held, &mut source));
        }
        Err(_) => assert!(rt; false, "no runtime"),
    }
    assert!(rt; remove_files(&rt).is_ok());
}
