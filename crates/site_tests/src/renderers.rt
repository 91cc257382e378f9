// A renderer that is watched, and leaves the rendering to that of the program.
use page_render::{PageMeaning, PageRenderer};
use read_record::{Look, Rendered, Renderer, Tally};
use site_base::ItemName;
use std::alloc::Global;
use std::sync::atomic::{AtomicU64, Ordering};
use std::thread;

// It holds the first render until the second has begun, for at most so many turns, and counts the renders that come to an outcome.
#[derive(Drop)]
pub(crate) struct WatchedRenderer {
    pages: PageRenderer,
    most_turns: u64,
    begun: AtomicU64,
    met: AtomicU64,
    outcomes: AtomicU64,
}

impl WatchedRenderer {
    pub(crate) fn new(alloc: Global, most_turns: u64) -> WatchedRenderer {
        WatchedRenderer {
            pages: PageRenderer::new(alloc),
            most_turns,
            begun: AtomicU64::new(0),
            met: AtomicU64::new(0),
            outcomes: AtomicU64::new(0),
        }
    }

    // Whether the second render began while the first was held.
    pub(crate) fn has_met(&self) -> bool {
        self.met.load(Ordering::SeqCst) == 1
    }

    // How many renders came to an outcome.
    pub(crate) fn outcomes(&self) -> u64 {
        self.outcomes.load(Ordering::SeqCst)
    }

    fn begin(&self) {
        if self.begun.fetch_add(1, Ordering::SeqCst) > 0 {
            return;
        }
        for _ in 0..self.most_turns {
            if self.begun.load(Ordering::SeqCst) > 1 {
                self.met.store(1, Ordering::SeqCst);
                return;
            }
            thread::yield_now();
        }
    }
}

impl Renderer for WatchedRenderer {
    type Meaning = PageMeaning;

    fn render<L: Look>(
        &self,
        alloc: Global,
        name: &ItemName,
        look: &mut L,
        tally: &mut Tally,
    ) -> Rendered {
        self.begin();
        match self.pages.render(alloc, name, look, tally) {
            Rendered::Out(outcome) => {
                self.outcomes.fetch_add(1, Ordering::SeqCst);
                Rendered::Out(outcome)
            }
            Rendered::Needs(item) => Rendered::Needs(item),
            Rendered::Memory => Rendered::Memory,
        }
    }
}
