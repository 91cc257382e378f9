// Where workers show each other what they made, and the bells at which they wait for it.
ghost use Rattle.std.specs.Prelude.{◌≡◌, IfSome, slice_get};
ghost use Rattle.std.specs.FinMap.{get};
ghost use Rattle.round_core.specs.Hands.{hand_outs};
ghost use Rattle.render_workers.specs.Shown.{IsShown, has_fault};

use memo_table::Memo;
use once_cell::race::OnceBox;
use read_record::{ItemMeaning, Outcome, World};
use round_core::{Hand, Made};
use site_base::Memory;
use std::alloc::Global;
use std::sync::{Condvar, Mutex, Wait};

/// A cell for each item, and a bell for each worker. Nothing is promised of what a cell holds: who takes it checks it again.
#[derive(Drop)]
pub(crate) struct Cells<M: ItemMeaning> {
    cells: Vec<OnceBox<Made<M>>>,
    board: Mutex<Board>,
    bells: Vec<Condvar>,
}

/// Who waits for what, and why a worker gives up an item.
#[derive(Drop)]
struct Board {
    /// For each bell, the item for which a worker waits there.
    awaited: Vec<Option<u32>>,
    /// The least item that is known to have a fault.
    least_fault: Option<u32>,
    /// Some worker lacks memory, so the whole round answers that.
    lacks_memory: bool,
    /// Some cell stays empty although its item was claimed.
    is_stuck: bool,
}

/// Who is to be woken.
#[derive(Clone, Copy)]
enum Ring {
    Nobody,
    /// Who waits at this bell.
    One(usize),
    All,
}

impl Board {
    /// Whether nobody needs this item any more.
    fn is_over(&self, item: u32) -> bool {
        match self.least_fault {
            Some(least) => self.lacks_memory || least < item,
            None => self.lacks_memory,
        }
    }

    fn note_fault(&mut self, item: u32) {
        self.least_fault = match self.least_fault {
            Some(least) => Some(least.min(item)),
            None => Some(item),
        };
    }

    /// Who waits for this item.
    fn waiting_for(&self, item: u32) -> Ring {
        let mut ring = Ring::Nobody;
        for (bell, awaited) in self.awaited.iter().enumerate() {
            if *awaited == Some(item) {
                ring = match ring {
                    Ring::Nobody => Ring::One(bell),
                    Ring::One(_) | Ring::All => return Ring::All,
                };
            }
        }
        ring
    }

    /// Takes a bell at which nobody waits.
    fn take_bell(&mut self, item: u32) -> Option<usize> {
        let bell = self.awaited.iter().position(|awaited| awaited.is_none())?;
        self.await_at(bell, Some(item));
        Some(bell)
    }

    fn await_at(&mut self, bell: usize, item: Option<u32>) {
        if let Some(awaited) = self.awaited.get_mut(bell) {
            *awaited = item;
        }
    }
}

impl<M: ItemMeaning> Cells<M> {
    /// Empty cells for so many items, and bells for so many workers.
    pub(crate) fn new(alloc: Global, items: u32, workers: u32) -> Result<Cells<M>, Memory> {
        let mut cells = Vec::with_capacity(alloc, items as usize)?;
        for _ in 0..items {
            cells.push(OnceBox::new(alloc))?;
        }
        let mut bells = Vec::with_capacity(alloc, workers as usize)?;
        let mut awaited = Vec::with_capacity(alloc, workers as usize)?;
        for _ in 0..workers {
            bells.push(Condvar::new())?;
            awaited.push(None)?;
        }
        Ok(Cells {
            cells,
            board: Mutex::new(Board {
                awaited,
                least_fault: None,
                lacks_memory: false,
                is_stuck: false,
            }),
            bells,
        })
    }

    /// What the cell of an item holds, where it is set.
    pub(crate) fn get(&self, item: u32) -> Option<&Made<M>> {
        let cell = self.cells.get(item as usize)?;
        let mut note = cell.note();
        cell.get_as(&mut note)
    }

    /// Sets the cell of an item, and wakes those who wait for it. After a fault, all are woken, and where the cell hands the value
    /// back, that is dropped, and all give up.
    ///
    /// What is shown is right over all that the worker has in its hand: for that alone the hand is given, with the world and what is kept.
    pub(crate) fn show<H: Wait, W: World>(
        &self,
        rt: &H,
        world: &W,
        memo: &Memo<M>,
        hand: &Hand<'_, M>,
        item: u32,
        made: Box<Made<M>>,
        has_fault: bool,
    )
        requires { IfSome (slice_get (W.names world.now) item)
            (λ name. IsShown (get memo.now name) (W.sight world.now item (hand_outs hand.now)) name (M.item name) made.value has_fault) }
    {
        let mut board = self.board.lock(rt);
        let mut ring = board.waiting_for(item);
        if has_fault {
            board.note_fault(item);
            ring = Ring::All;
        }
        if !self.set(item, made) {
            board.is_stuck = true;
            ring = Ring::All;
        }
        drop(board);
        self.ring(ring);
    }

    fn rung_at(&self, bell: Option<usize>) -> Option<&Condvar> {
        self.bells.get(bell?)
    }

    fn ring(&self, ring: Ring) {
        match ring {
            Ring::Nobody => {}
            Ring::One(bell) => {
                if let Some(rung) = self.rung_at(Some(bell)) {
                    rung.notify_one();
                }
            }
            Ring::All => {
                for rung in &self.bells {
                    rung.notify_one();
                }
            }
        }
    }

    fn set(&self, item: u32, made: Box<Made<M>>) -> bool {
        match self.cells.get(item as usize) {
            Some(cell) => {
                let mut note = cell.note();
                cell.set_as(made, &mut note).is_ok()
            }
            None => false,
        }
    }

    /// Tells that an item is left whose cell stays empty.
    pub(crate) fn leave<H: Wait>(&self, rt: &H) {
        let mut board = self.board.lock(rt);
        board.is_stuck = true;
        drop(board);
        self.ring(Ring::All);
    }

    /// Tells that a worker lacks memory.
    pub(crate) fn lack_memory<H: Wait>(&self, rt: &H) {
        let mut board = self.board.lock(rt);
        board.lacks_memory = true;
        drop(board);
        self.ring(Ring::All);
    }

    /// Whether nobody needs this item any more.
    pub(crate) fn is_over<H: Wait>(&self, rt: &H, item: u32) -> bool {
        let board = self.board.lock(rt);
        board.is_over(item)
    }

    /// Waits until the cell of an item is set. It answers `None` where the reader has to give up its own item.
    pub(crate) fn wait_for<H: Wait>(&self, rt: &H, item: u32, reader: u32) -> Option<&Made<M>> {
        if let Some(made) = self.get(item) {
            return Some(made);
        }
        let mut board = self.board.lock(rt);
        let bell = board.take_bell(item);
        let (Some(bell), Some(rung)) = (bell, self.rung_at(bell)) else {
            // Never, as each worker has a bell and waits for one item at a time.
            drop(board);
            self.leave(rt);
            return None;
        };
        for _ in rt.forever() {
            // Who sets a cell has the lock, so no ring is missed between this look and the wait.
            if let Some(made) = self.get(item) {
                board.await_at(bell, None);
                return Some(made);
            }
            if board.is_stuck || board.is_over(reader) {
                board.await_at(bell, None);
                return None;
            }
            board = rung.wait(rt, board);
        }
        unreachable!()
    }
}

/// Whether an item has a fault.
pub(crate) fn has_fault(outcome: &Outcome) -> bool
    ensures { result ≡ has_fault outcome.now }
{
    match outcome {
        Outcome::Done {
            content: _,
            output: _,
        } => false,
        Outcome::Fault(_) => true,
    }
}
