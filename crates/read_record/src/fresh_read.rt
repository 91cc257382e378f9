// Reads of records that were just made.
ghost use Rattle.std.specs.Prelude.{◌≡◌, IfOk};

use crate::SharedKey;
use crate::seen_code::SeenCode;
use site_base::Memory;
use std::marker::Model;

/// A key that was read, and the code of the value that was seen; other reads may hold the same two. Clauses see a pair.
#[derive(Drop)]
pub(crate) struct FreshRead {
    key: SharedKey,
    code: SeenCode,
}

impl Model for FreshRead {
    ghost use Rattle.std.specs.Prelude.{List, ℕ};
    ghost use Rattle.std.specs.Coded.{coded×, coded_list, coded_ℕ};
    ghost use Rattle.read_record.specs.declared.key.Key.{Key};
    ghost use Rattle.read_record.specs.contracts.key.Key as the_key;

    ghost Value = { Key × List ℕ };

    ghost coded = { coded× the_key.the_row.coded (coded_list coded_ℕ) };

    ghost view = { λ read. (read.key, read.code) };
}

impl FreshRead {
    pub(crate) fn new(key: SharedKey, code: SeenCode) -> FreshRead
        ensures { result ≡ (key, code) }
    {
        FreshRead { key, code }
    }

    pub(crate) fn key(&self) -> &SharedKey
        ensures { result.now ≡ self.now.0 }
    {
        &self.key
    }

    pub(crate) fn code(&self) -> &[u8]
        ensures { result.now ≡ self.now.1 }
    {
        self.code.as_slice()
    }

    /// The same key with another code.
    pub(crate) fn with_code(self, code: SeenCode) -> FreshRead
        ensures { result ≡ (self.0, code) }
    {
        FreshRead {
            key: self.key,
            code,
        }
    }

    /// A further holder of the same key and the same code.
    pub(crate) fn share(&self) -> Result<FreshRead, Memory>
        ensures { IfOk result (λ read. read ≡ self.now) }
    {
        Ok(FreshRead {
            key: self.key.share()?,
            code: self.code.share()?,
        })
    }
}
