// The values of the links that a table keeps.
ghost use Rattle.std.specs.Prelude.{◌≡◌, ◌≤◌, ◌<◌, IfOk, MatchOption, None, OnOk, Some, [], length};
ghost use Rattle.std.specs.List.{AllByRecursion};
ghost use Rattle.link_check.specs.Numbers.{AreNumbers, AreNumbered, AreSafe, Forgets, IsIndex, IsSafe, Keeps, KeepsUsed, Marks, held_at, texts_of};

use crate::page::Page;
use crate::value_key::ValueKey;
use site_base::{Memory, SitePath, Text};
use std::alloc::Global;
use std::collections::BTreeMap;
use std::marker::Model;
use std::mem;

/// The values of the links that a table keeps, each once and with a number. Clauses see the text of each number, if it has one.
///
/// A value is found by the order of its bytes, so no page can choose values that are found slowly.
#[derive(Drop)]
pub(crate) struct ValueTable {
    slots: Vec<Slot>,
    numbers: BTreeMap<ValueKey, u32>,
    // Free slots are looked for from here on.
    taken: usize,
}

// A text with its number, which is the place of the slot; a free slot has none.
#[derive(Drop)]
pub(crate) struct Slot {
    text: Option<Text>,
    is_used: bool,
}

impl Model for ValueTable {
    ghost use Rattle.std.specs.Prelude.{List, Option, ℕ};
    ghost use Rattle.link_check.specs.Numbers.{IsIndex, texts_of};

    ghost Value = { List (Option (List ℕ)) };

    ghost view = { λ table. texts_of table.slots.items };

    ghost invariant = { λ table. IsIndex (texts_of table.slots.items) table.numbers };
}

impl ValueTable {
    /// No values; it takes no memory.
    pub(crate) fn new(alloc: Global) -> ValueTable
        ensures { result ≡ [] }
    {
        ValueTable {
            slots: Vec::new(alloc),
            numbers: BTreeMap::new(alloc),
            taken: 0,
        }
    }

    /// All numbers are below this one.
    pub(crate) fn len(&self) -> usize
        ensures { result ≡ length self.now }
    {
        self.slots.len()
    }

    /// The text of a number, if it has one.
    pub(crate) fn text(&self, number: u32) -> Option<&Text>
        ensures { MatchOption result (held_at self.now number ≡ None) (λ text. held_at self.now number ≡ Some text.now) }
    {
        self.text_at(number as usize)
    }

    fn text_at(&self, place: usize) -> Option<&Text>
        ensures { MatchOption result (held_at self.now place ≡ None) (λ text. held_at self.now place ≡ Some text.now) }
    {
        if place < self.slots.len() {
            return self.slots[place].text.as_ref();
        }
        None
    }

    /// The numbers of texts; those that have none get one. Each text keeps its number, also after `Memory`.
    pub(crate) fn numbers_of(&mut self, alloc: Global, texts: &[Text]) -> Result<Vec<u32>, Memory>
        ensures numbers { IfOk result (λ numbers. AreNumbers self.new numbers.items texts.now) }
        ensures kept { Keeps self.old self.new }
    {
        let mut numbers = Vec::with_capacity(alloc, texts.len())?;
        for text in texts {
            numbers.push(self.number_of(alloc, text)?)?;
        }
        Ok(numbers)
    }

    fn number_of(&mut self, alloc: Global, text: &Text) -> Result<u32, Memory>
        ensures number { IfOk result (λ number. held_at self.new number ≡ Some text.now) }
        ensures kept { Keeps self.old self.new }
    {
        let key = ValueKey::of(text.share(alloc)?);
        if let Some(number) = self.numbers.get(&key) {
            return Ok(*number);
        }
        let text = text.share(alloc)?;
        self.add(key, text)
    }

    // Gives a text a number.
    fn add(&mut self, key: ValueKey, text: Text) -> Result<u32, Memory>
        requires { key ≡ text }
        ensures number { IfOk result (λ number. held_at self.new number ≡ Some text) }
        ensures kept { Keeps self.old self.new }
    {
        let number = self.place(text)?;
        self.numbers.insert(key, number)?;
        Ok(number)
    }

    // Puts a text into a free slot.
    fn place(&mut self, text: Text) -> Result<u32, Memory>
        ensures number { IfOk result (λ number. held_at self.new number ≡ Some text) }
        ensures kept { Keeps self.old self.new }
    {
        let place = self.free_slot();
        let number = number_at(place)?;
        let slot = Slot {
            text: Some(text),
            is_used: true,
        };
        put_slot(&mut self.slots, place, slot)?;
        self.taken = place;
        Ok(number)
    }

    // A free slot, or the place behind all.
    fn free_slot(&self) -> usize
        ensures bound { result ≤ length self.now }
        ensures free { held_at self.now result ≡ None }
    {
        for place in self.taken..self.slots.len() {
            match self.text_at(place) {
                None => return place,
                Some(_) => {}
            }
        }
        self.end()
    }

    // The place behind all slots.
    fn end(&self) -> usize
        ensures bound { result ≤ length self.now }
        ensures free { held_at self.now result ≡ None }
    {
        self.slots.len()
    }

    /// Lets all texts go that these pages do not use; it takes no memory.
    pub(crate) fn forget_unused(&mut self, pages: &[(SitePath, Page)])
        requires { AreNumbered self.old pages.now }
        ensures { AreNumbered self.new pages.now }
    {
        self.taken = 0;
        unmark(&mut self.slots);
        mark_pages(&mut self.slots, pages);
        sweep(&mut self.slots, &mut self.numbers);
    }
}

// No slot counts as used.
fn unmark(slots: &mut Vec<Slot>)
    ensures { texts_of slots.new.items ≡ texts_of slots.old.items }
{
    for place in 0..slots.len() {
        slots[place].is_used = false;
    }
}

// The slots of the pages' values count as used.
fn mark_pages(slots: &mut Vec<Slot>, pages: &[(SitePath, Page)])
    ensures same { Marks slots.old.items slots.new.items }
    ensures safe { AllByRecursion (λ entry. AreSafe slots.new.items entry.1.links.items) pages.now }
{
    for entry in pages {
        mark(slots, &entry.1.links);
    }
}

fn mark(slots: &mut Vec<Slot>, numbers: &[u32])
    ensures same { Marks slots.old.items slots.new.items }
    ensures safe { AreSafe slots.new.items numbers.now }
{
    for number in numbers {
        mark_slot(slots, *number as usize);
    }
}

fn mark_slot(slots: &mut Vec<Slot>, place: usize)
    ensures same { Marks slots.old.items slots.new.items }
    ensures safe { IsSafe slots.new.items place }
{
    if place < slots.len() {
        slots[place].is_used = true;
    }
}

// Frees all slots that are not used.
fn sweep(slots: &mut Vec<Slot>, numbers: &mut BTreeMap<ValueKey, u32>)
    requires { IsIndex (texts_of slots.old.items) numbers.old }
    ensures sound { IsIndex (texts_of slots.new.items) numbers.new }
    ensures kept { KeepsUsed slots.old.items slots.new.items }
{
    for place in 0..slots.len() {
        sweep_slot(slots, numbers, place);
    }
}

fn sweep_slot(slots: &mut Vec<Slot>, numbers: &mut BTreeMap<ValueKey, u32>, place: usize)
    requires within { place < length slots.old.items }
    requires sound { IsIndex (texts_of slots.old.items) numbers.old }
    ensures sound { IsIndex (texts_of slots.new.items) numbers.new }
    ensures kept { KeepsUsed slots.old.items slots.new.items }
    ensures same { length slots.new.items ≡ length slots.old.items }
{
    if slots[place].is_used {
        return;
    }
    let free = Slot {
        text: None,
        is_used: false,
    };
    let slot = mem::replace(&mut slots[place], free);
    forget(numbers, slot.text);
}

fn forget(numbers: &mut BTreeMap<ValueKey, u32>, text: Option<Text>)
    ensures { Forgets text numbers.old numbers.new }
{
    if let Some(text) = text {
        numbers.remove(&ValueKey::of(text));
    }
}

fn number_at(place: usize) -> Result<u32, Memory>
    ensures { IfOk result (λ number. number ≡ place) }
{
    match u32::try_from(place) {
        Ok(number) => Ok(number),
        Err(_) => Err(Memory),
    }
}

// Writes a slot, or adds it behind all.
fn put_slot(slots: &mut Vec<Slot>, place: usize, slot: Slot) -> Result<(), Memory>
    requires { place ≤ length slots.old.items }
    ensures held { OnOk result (held_at (texts_of slots.new.items) place ≡ slot.text) }
    ensures kept { held_at (texts_of slots.old.items) place ≡ None → Keeps (texts_of slots.old.items) (texts_of slots.new.items) }
{
    if place < slots.len() {
        slots[place] = slot;
        return Ok(());
    }
    slots.push(slot)?;
    Ok(())
}
