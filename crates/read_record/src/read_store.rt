// Keys and codes, each kept once for many reads.
ghost use Rattle.std.specs.Prelude.{◌≡◌, [], ◌∷◌, ◌<◌, IfOk, OnErr};
ghost use Rattle.std.specs.FinMap as map;
ghost use Rattle.text_pool.specs.Texts.{bytes_of, count_of};
ghost use Rattle.read_record.specs.Stores.{key_of, resolved, uses_of, HasMore};

use crate::Key;
use crate::fresh_read::FreshRead;
use crate::key_table::KeyTable;
use site_base::Memory;
use std::alloc::Global;
use std::marker::Model;
use text_pool::{Pool, TextId};

// More ids than a pool can count. No memory holds them.
const MOST_IDS: u128 = 170_141_183_460_469_231_731_687_303_715_884_105_728;

/// The keys and codes of the records that are kept, each once. Clauses see the keys by their numbers, and the pool of the codes.
#[derive(Drop)]
pub struct ReadStore {
    keys: KeyTable,
    codes: Pool,
}

impl Model for ReadStore {
    ghost use Rattle.read_record.specs.contracts.key.Key as the_key;
    ghost use Rattle.read_record.specs.Stores.{Store, store_code};

    ghost Value = { Store };

    ghost coded = { store_code the_key.the_row.coded };

    ghost view = { λ store. record { keys = store.keys; codes = store.codes } };
}

/// A read whose key and code are in a store. Clauses see their numbers.
#[derive(Drop)]
pub(crate) struct NumberedRead {
    key: usize,
    code: TextId,
}

impl Model for NumberedRead {
    ghost use Rattle.std.specs.Prelude.{ℕ};

    ghost Value = { ℕ × ℕ };

    ghost view = { λ read. (read.key, read.code) };
}

impl NumberedRead {
    /// The number of the key.
    pub(crate) fn key_number(&self) -> usize
        ensures { result ≡ self.now.0 }
    {
        self.key
    }

    /// The number of the code.
    pub(crate) fn code_number(&self) -> usize
        ensures { result ≡ self.now.1 }
    {
        self.code.number()
    }
}

impl ReadStore {
    /// The store of no reads; it takes no memory.
    pub fn new(alloc: Global) -> ReadStore
        ensures { result ≡ record { keys = []; codes = map.empty } }
    {
        ReadStore {
            keys: KeyTable::new(alloc),
            codes: Pool::new(alloc),
        }
    }

    /// The codes, each with how many reads have it.
    pub fn codes(&self) -> &Pool
        ensures { result.now ≡ self.now.codes }
    {
        &self.codes
    }

    /// Below how many all numbers of keys are. Nothing is promised of it.
    pub(crate) fn key_places(&self) -> usize {
        self.keys.places()
    }

    /// The key of a read.
    pub(crate) fn key(&self, read: &NumberedRead) -> &Key
        requires { 0 < uses_of self.now.keys read.now.0 }
        ensures { result.now ≡ key_of self.now.keys read.now.0 }
    {
        self.keys.key(read.key)
    }

    /// The code of a read.
    pub(crate) fn code(&self, read: &NumberedRead) -> &[u8]
        requires { 0 < count_of self.now.codes read.now.1 }
        ensures { result.now ≡ bytes_of self.now.codes read.now.1 }
    {
        self.codes.bytes(&read.code)
    }

    /// A read with the key and the code of a fresh one. After `Memory` the store holds what it held.
    pub(crate) fn add(&mut self, alloc: Global, read: &FreshRead) -> Result<NumberedRead, Memory>
        ensures held { IfOk result (λ numbered. HasMore self.old self.new (numbered ∷ [])) }
        ensures same { IfOk result (λ numbered. resolved self.new (numbered ∷ []) ≡ read.now ∷ []) }
        ensures err { OnErr result (HasMore self.old self.new []) }
    {
        if self.codes.holds() >= MOST_IDS {
            return Err(Memory);
        }
        let key = self.keys.hold(read.key())?;
        match self.codes.intern(alloc, read.code()) {
            Ok(code) => Ok(NumberedRead { key, code }),
            Err(_) => {
                self.keys.release(key);
                Err(Memory)
            }
        }
    }

    /// Gives a read back; it takes no memory.
    pub(crate) fn release(&mut self, read: NumberedRead)
        requires key { 0 < uses_of self.old.keys read.0 }
        requires code { 0 < count_of self.old.codes read.1 }
        ensures { HasMore self.new self.old (read ∷ []) }
    {
        let NumberedRead { key, code } = read;
        self.keys.release(key);
        self.codes.give_back(code);
    }
}
