// Keys with several holders, and what finds them.
ghost use Rattle.std.specs.Prelude.{◌≡◌, IfOk};
ghost use Rattle.std.specs.Arc.{arc_value};
ghost use Rattle.read_record.specs.TableKeys.{key_in};

use crate::Key;
use site_base::Memory;
use std::alloc::Global;
use std::hash::{Hash, Hasher};
use std::marker::Model;
use std::sync::Arc;

/// A key that several holders share. Clauses see the key.
#[derive(Drop)]
pub struct SharedKey {
    key: Arc<Key>,
}

impl Model for SharedKey {
    ghost use Rattle.std.specs.Arc.{arc_value};
    ghost use Rattle.read_record.specs.declared.key.Key.{Key as Key'};
    ghost use Rattle.read_record.specs.contracts.key.Key as the_key;

    ghost Value = { Key' };

    ghost coded = { the_key.the_row.coded };

    ghost view = { λ shared. arc_value shared.key };
}

impl SharedKey {
    /// The key, with one holder.
    pub fn new(alloc: Global, key: Key) -> Result<SharedKey, Memory>
        ensures { IfOk result (λ shared. shared ≡ key) }
    {
        match Arc::new(alloc, key) {
            Ok(key) => Ok(SharedKey { key }),
            Err(_) => Err(Memory),
        }
    }

    /// A further holder of the same key.
    pub fn share(&self) -> Result<SharedKey, Memory>
        ensures { IfOk result (λ shared. shared ≡ self.now) }
    {
        match self.key.clone() {
            Ok(key) => Ok(SharedKey { key }),
            Err(_) => Err(Memory),
        }
    }

    pub fn as_key(&self) -> &Key
        ensures { result.now ≡ self.now }
    {
        self.key.as_ref()
    }
}

/// A key of a table, or one that is asked for.
#[derive(Drop)]
pub(crate) enum TableKey<'a> {
    Kept(SharedKey),
    Asked(&'a Key),
}

impl<'a> TableKey<'a> {
    fn key(&self) -> &Key
        ensures { result.now ≡ key_in self.now }
    {
        match self {
            TableKey::Kept(key) => key.as_key(),
            TableKey::Asked(key) => key,
        }
    }
}

impl<'a> PartialEq for TableKey<'a> {
    ghost use Rattle.std.specs.Cmp.{partial_equiv_from_equiv};
    ghost use Rattle.read_record.specs.TableKeys.{same_table_key, same_table_key-equiv};

    ghost eq = { same_table_key };

    ghost laws = { partial_equiv_from_equiv same_table_key-equiv };

    fn eq(&self, other: &Self) -> bool {
        self.key() == other.key()
    }
}

impl<'a> Eq for TableKey<'a> {
    ghost use Rattle.read_record.specs.TableKeys.{same_table_key-equiv};

    ghost laws = { same_table_key-equiv };
}

impl<'a> Hash for TableKey<'a> {
    ghost use Rattle.read_record.specs.TableKeys.{table_key_writes, table_key_writes-same};

    ghost hash_input = { table_key_writes };

    ghost respects_eq = { table_key_writes-same };

    fn hash<H: Hasher>(&self, state: &mut H) {
        self.key().hash(state);
    }
}
