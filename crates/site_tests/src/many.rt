// Sites of many items, built with one job and with several.
use crate::runs::{Ends, FileList};
use site_base::SitePath;
use std::alloc::Global;
use std::sync::Wait;
use std::thread::Threads;

const JOBS: &[&str] = &["1", "2", "8", "64"];

// A post that shows one more than the post before it; the first shows 1.
const NEXT: &str = "---\n---\n{{ page.previous.content | plus: 1 }}";

// A post that shows nothing of others.
const ALONE: &str = "---\n---\nx";

// A page that shows what the last post comes to.
const LAST: &str = "---\n---\n{{ site.posts[0].content }}";

const FAULTY: &str = "---\n---\n{% include no.html %}";

// A site of posts and then pages, in the order in which they are rendered. Those from one place up to another have a fault.
#[derive(Clone, Copy)]
struct Site {
    posts: u64,
    post: &'static str,
    pages: u64,
    faulty_from: u64,
    faulty_to: u64,
}

impl Site {
    fn text(&self, place: u64) -> &'static str {
        if self.faulty_from <= place && place < self.faulty_to {
            FAULTY
        } else if place < self.posts {
            self.post
        } else {
            LAST
        }
    }

    // What the item at a place shows, in a site of posts that each show one more than the one before.
    fn shown(&self, place: u64) -> u64 {
        if place < self.posts {
            place.saturating_add(1)
        } else {
            self.posts
        }
    }

    fn items(&self) -> u64 {
        self.posts.saturating_add(self.pages)
    }

    // The path at a place, with this in front of the number of a post.
    fn path(&self, alloc: Global, front: &str, place: u64) -> Option<SitePath> {
        let number = place.saturating_add(1_000);
        let path = if place < self.posts {
            format!(in alloc; "{front}{number}.html").ok()?
        } else {
            format!(in alloc; "p{number}.html").ok()?
        };
        SitePath::read(alloc, &path).ok()
    }

    fn source_path(&self, alloc: Global, place: u64) -> Option<SitePath> {
        self.path(alloc, "_posts/2000-01-01-p", place)
    }

    fn output_path(&self, alloc: Global, place: u64) -> Option<SitePath> {
        self.path(alloc, "2000/01/01/p", place)
    }

    fn files(&self, alloc: Global) -> Option<FileList> {
        let mut files = Vec::new(alloc);
        for place in 0..self.items() {
            let path = self.source_path(alloc, place)?;
            let text = self.text(place).as_bytes().to_vec(alloc).ok()?;
            files.push((path, text)).ok()?;
        }
        Some(files)
    }
}

// Whether the item at a place has its output.
fn is_made(alloc: Global, site: &Site, place: u64, ends: &Ends) -> Option<bool> {
    let path = site.output_path(alloc, place)?;
    let shown = format!(in alloc; "{}", site.shown(place)).ok()?;
    Some(ends.has_output(&path, &shown))
}

fn are_made(alloc: Global, site: &Site, ends: &Ends) -> bool {
    for place in 0..site.items() {
        match is_made(alloc, site, place, ends) {
            Some(true) => {}
            _ => return false,
        }
    }
    ends.out.len() as u64 == site.items()
}

// The site's ends.
fn ends_of(alloc: Global, site: &Site) -> Option<Ends> {
    Ends::new(alloc, site.files(alloc)?, "never read", 0)
}

fn done_replies(alloc: Global, site: &Site) -> Option<String> {
    let items = site.items();
    format!(in alloc;
        "scanned {items}\nbuilt rendered={items} reused=0 written={items} removed=0\n"
    ).ok()
}

fn fault_replies(alloc: Global, site: &Site) -> Option<String> {
    let items = site.items();
    let path = site.source_path(alloc, site.faulty_from)?;
    format!(in alloc; "scanned {items}\nfault F12 1 {}\n", path.text()).ok()
}

// Whether a build of the site with so many jobs ends so.
fn build_ends<H: Threads + Wait + Sync>(
    rt: &H,
    alloc: Global,
    jobs: &str,
    ends: &mut Ends,
    status: u8,
    replies: &Option<String>,
) -> bool {
    match replies {
        Some(replies) => ends.end_with(rt, alloc, "build", jobs, status, replies),
        None => false,
    }
}

// Whether the site is built whole with so many jobs.
fn is_done<H: Threads + Wait + Sync>(rt: &H, alloc: Global, jobs: &str, site: &Site) -> bool {
    match ends_of(alloc, site) {
        Some(mut ends) => {
            build_ends(rt, alloc, jobs, &mut ends, 0, &done_replies(alloc, site))
                && are_made(alloc, site, &ends)
        }
        None => false,
    }
}

// Whether the first fault is told, and nothing is done to the output.
fn is_refused<H: Threads + Wait + Sync>(rt: &H, alloc: Global, jobs: &str, site: &Site) -> bool {
    match ends_of(alloc, site) {
        Some(mut ends) => {
            build_ends(rt, alloc, jobs, &mut ends, 1, &fault_replies(alloc, site))
                && ends.out.calls() == 0
        }
        None => false,
    }
}

// A site without a fault, whose posts each need the one before.
fn sound(posts: u64, pages: u64) -> Site {
    Site {
        posts,
        post: NEXT,
        pages,
        faulty_from: 0,
        faulty_to: 0,
    }
}

#[test]
fn a_chain_of_posts(rt: HostRuntime) {
    let site = sound(2_000, 0);
    for jobs in JOBS {
        assert!(rt;
            is_done(&rt, rt.alloc(), jobs, &site),
            "not with {jobs} jobs"
        );
    }
}

// All pages need the last post, which needs all others.
#[test]
fn pages_that_show_the_last_post(rt: HostRuntime) {
    let site = sound(200, 300);
    for jobs in JOBS {
        assert!(rt;
            is_done(&rt, rt.alloc(), jobs, &site),
            "not with {jobs} jobs"
        );
    }
}

// So many posts, and so many pages.
const FEW: &[(u64, u64)] = &[(0, 0), (1, 0), (2, 3)];

#[test]
fn more_jobs_than_items(rt: HostRuntime) {
    for &(posts, pages) in FEW {
        for jobs in JOBS {
            assert!(rt;
                is_done(&rt, rt.alloc(), jobs, &sound(posts, pages)),
                "not {posts} with {jobs} jobs"
            );
        }
    }
}

// Posts of this text, and which items of all have a fault: the first, one in the middle or the last, alone or with all behind it.
// Where others need what has a fault, they are never made.
const FAULTS: &[(&str, u64, u64)] = &[
    (ALONE, 0, 1),
    (NEXT, 0, 1),
    (ALONE, 0, 120),
    (NEXT, 59, 60),
    (ALONE, 59, 120),
    (NEXT, 119, 120),
];

fn faulty(post: &'static str, faulty_from: u64, faulty_to: u64) -> Site {
    Site {
        posts: 60,
        post,
        pages: 60,
        faulty_from,
        faulty_to,
    }
}

#[test]
fn the_first_fault(rt: HostRuntime) {
    for &(post, from, to) in FAULTS {
        for jobs in JOBS {
            assert!(rt;
                is_refused(&rt, rt.alloc(), jobs, &faulty(post, from, to)),
                "not {from} with {jobs} jobs"
            );
        }
    }
}
