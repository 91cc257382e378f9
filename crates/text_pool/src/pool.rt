// A pool of texts.
ghost use Rattle.std.specs.Prelude.{◌≡◌, ◌+◌, ◌<◌, ◌^◌, ◌↔◌, IsTrue, IfOk, OnOk, OnErr};
ghost use Rattle.std.specs.FinMap as map;
ghost use Rattle.text_pool.specs.Texts.{bytes_of, held_ids, with_id, without_id, IsHeld, HaveOneNumber, IsNumberOf, KeepBytes};

use crate::TextId;
use crate::text_table::TextTable;
use site_base::Memory;
use std::alloc::Global;
use std::marker::Model;

/// Texts that many hold, each kept once. Clauses see a map from numbers to texts, each with how many ids of it are held.
///
/// Every call takes the same time whatever the pool holds, but that `intern` and `same` go over the bytes that they are handed.
#[derive(Drop)]
pub struct Pool {
    table: TextTable,
    holds: u128,
}

impl Model for Pool {
    ghost use Rattle.std.specs.Prelude.{◌≡◌};
    ghost use Rattle.std.specs.FinMap as map;
    ghost use Rattle.std.specs.Coded.{coded_ℕ};
    ghost use Rattle.text_pool.specs.Texts.{Texts, held_code, held_ids, HaveOneNumber};

    ghost Value = { Texts };

    ghost coded = { map.code coded_ℕ held_code };

    ghost view = { λ pool. pool.table };

    ghost invariant = { λ pool. (pool.holds ≡ held_ids pool.table) × HaveOneNumber pool.table };
}

impl Pool {
    /// The pool of no texts; it takes no memory.
    pub fn new(alloc: Global) -> Pool
        ensures empty { result ≡ map.empty }
        ensures holds { held_ids result ≡ 0 }
    {
        Pool {
            table: TextTable::new(alloc),
            holds: 0,
        }
    }

    /// An id of a text: with the number that it has, or a number that no text has. Only this call takes memory, where the text
    /// is new. After `Memory` the pool is as before.
    pub fn intern(&mut self, alloc: Global, bytes: &[u8]) -> Result<TextId, Memory>
        requires { held_ids self.old < 2 ^ 127 }
        ensures ok { IfOk result (λ id. self.new ≡ with_id self.old id bytes.now) }

        // A number that is held is the answer exactly where it has these bytes.
        ensures number { IfOk result (IsNumberOf self.old bytes.now) }
        ensures held { IfOk result (IsHeld self.new) }
        ensures kept { OnOk result (KeepBytes self.old self.new) }
        ensures holds { OnOk result (held_ids self.new ≡ held_ids self.old + 1) }
        ensures err { OnErr result (self.new ≡ self.old) }
    {
        let number = self.table.intern(alloc, bytes)?;
        self.holds += 1;
        Ok(TextId::of(number))
    }

    /// The text of an id.
    pub fn bytes(&self, id: &TextId) -> &[u8]
        requires { IsHeld self.now id.now }
        ensures { result.now ≡ bytes_of self.now id.now }
    {
        self.table.bytes(id.number())
    }

    /// Whether the text of an id is this one.
    pub fn same(&self, id: &TextId, bytes: &[u8]) -> bool
        requires { IsHeld self.now id.now }
        ensures { IsTrue result ↔ (bytes_of self.now id.now ≡ bytes.now) }
    {
        self.bytes(id) == bytes
    }

    /// A further id of the same number; it takes no memory.
    pub fn again(&mut self, id: &TextId) -> TextId
        requires held { IsHeld self.old id.now }
        requires room { held_ids self.old < 2 ^ 127 }
        ensures number { result ≡ id.now }
        ensures counted { self.new ≡ with_id self.old id.now (bytes_of self.old id.now) }
        ensures held { IsHeld self.new result }
        ensures kept { KeepBytes self.old self.new }
        ensures holds { held_ids self.new ≡ held_ids self.old + 1 }
    {
        self.table.hold(id.number());
        self.holds += 1;
        TextId::of(id.number())
    }

    /// Takes an id back, and with the last id of a number lets its text go; it takes no memory.
    pub fn give_back(&mut self, id: TextId)
        requires { IsHeld self.old id }
        ensures counted { self.new ≡ without_id self.old id }
        ensures kept { KeepBytes self.old self.new }
        ensures holds { held_ids self.new + 1 ≡ held_ids self.old }
    {
        self.table.release(id.number());
        self.holds -= 1;
    }

    /// How many ids were given out and not given back.
    pub fn holds(&self) -> u128
        ensures holds { result ≡ held_ids self.now }

        // Two numbers that are held have other bytes.
        ensures one { HaveOneNumber self.now }
    {
        self.holds
    }
}
