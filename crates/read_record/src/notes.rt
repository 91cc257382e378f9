// What was found of reads by numbers.
ghost use Rattle.std.specs.Prelude.{◌≡◌, ◌≢◌, Some, IfOk, slice_get, slice_set};
ghost use Rattle.read_record.specs.Noted.{noted_read, with_note, AreRight};
ghost use Rattle.read_record.specs.Stores.{Store};
ghost use Rattle.read_record.specs.Worlds.{Sight};

use crate::read_store::{NumberedRead, ReadStore};
use crate::{Agreement, Key};
use site_base::Memory;
use std::alloc::Global;
use std::marker::Model;

/// What was found of the reads of a store over a world: of each key one code, and whether the world gives its value. Clauses see a
/// list of notes, by the numbers of the keys.
#[derive(Drop)]
pub struct Notes {
    notes: Vec<Note>,
}

/// The number of a code, and what was found of it under a key.
#[derive(Clone, Copy)]
pub(crate) struct Note {
    code: usize,
    verdict: Verdict,
}

#[derive(Clone, Copy)]
pub(crate) enum Verdict {
    Unknown,
    Agrees,
    Differs,
}

impl Model for Notes {
    ghost use Rattle.std.specs.Coded.{coded_list};
    ghost use Rattle.read_record.specs.contracts.notes.Note as the_note;
    ghost use Rattle.read_record.specs.Noted.{NoteList};

    ghost Value = { NoteList };

    ghost coded = { coded_list the_note.the_row.coded };

    ghost view = { λ notes. notes.notes.items };
}

impl Notes {
    /// No notes, with room for the keys that a store has. The one error is want of memory.
    pub fn new(alloc: Global, store: &ReadStore) -> Result<Notes, Memory>
        ensures { IfOk result (λ notes. (store : Store) (sight : Sight) → AreRight store sight notes) }
    {
        let keys = store.key_places();
        let mut notes = Vec::with_capacity(alloc, keys)?;
        for _ in 0..keys {
            notes.push(Note {
                code: 0,
                verdict: Verdict::Unknown,
            })?;
        }
        Ok(Notes { notes })
    }

    /// What was found of a read.
    pub(crate) fn of(&self, read: &NumberedRead) -> Verdict
        ensures { result ≢ Verdict.Unknown → slice_get self.now read.now.0 ≡ Some (record { code = read.now.1; verdict = result }) }
    {
        match self.notes.get(read.key_number()) {
            Some(note) if note.code == read.code_number() => note.verdict,
            Some(_) => Verdict::Unknown,
            None => Verdict::Unknown,
        }
    }

    /// Notes what a read of a key was found to be, where all who ask find the same. It takes no memory.
    pub(crate) fn keep(&mut self, key: &Key, read: &NumberedRead, found: Agreement)
        ensures { self.new ≡ noted_read key.now read.now found self.old }
    {
        match key {
            Key::Content(_) => {}
            Key::Output(_) => {}
            _ => self.set(read, found),
        }
    }

    fn set(&mut self, read: &NumberedRead, found: Agreement)
        ensures { self.new ≡ with_note read.now found self.old }
    {
        match found {
            Agreement::Same => self.put(read, Verdict::Agrees),
            Agreement::Other => self.put(read, Verdict::Differs),
            Agreement::Needs(_) => {}
        }
    }

    fn put(&mut self, read: &NumberedRead, verdict: Verdict)
        ensures { self.new ≡ slice_set self.old read.now.0 (record { code = read.now.1; verdict = verdict }) }
    {
        let key = read.key_number();
        if key < self.notes.len() {
            self.notes[key] = Note {
                code: read.code_number(),
                verdict,
            };
        }
    }
}
