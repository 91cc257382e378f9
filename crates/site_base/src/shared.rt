// The bytes of a file, which several holders share.
ghost use Rattle.std.specs.Prelude.{◌≡◌, IfOk, length};

use crate::{FileBytes, Memory};
use std::alloc::Global;
use std::marker::Model;
use std::sync::Arc;

/// The bytes of a file, which held files, bodies of a site, a tree, a plan and a belief share without a copy.
#[derive(Drop)]
pub struct SharedBytes {
    bytes: Arc<FileBytes>,
}

impl Model for SharedBytes {
    ghost use Rattle.std.specs.Arc.{arc_value};
    ghost use Rattle.std.specs.Prelude.{List, ℕ};

    ghost Value = { List ℕ };

    ghost view = { λ shared. arc_value shared.bytes };
}

impl SharedBytes {
    /// The bytes, with one holder.
    pub fn from_vec(alloc: Global, bytes: Vec<u8>) -> Result<SharedBytes, Memory>
        ensures { IfOk result (λ shared. shared ≡ bytes.items) }
    {
        match Arc::new(alloc, FileBytes::from_vec(bytes)) {
            Ok(bytes) => Ok(SharedBytes { bytes }),
            Err(_) => Err(Memory),
        }
    }

    /// A further holder of the same bytes.
    pub fn share(&self) -> Result<SharedBytes, Memory>
        ensures { IfOk result (λ shared. shared ≡ self.now) }
    {
        match self.bytes.clone() {
            Ok(bytes) => Ok(SharedBytes { bytes }),
            Err(_) => Err(Memory),
        }
    }

    pub fn as_slice(&self) -> &[u8]
        ensures { result.now ≡ self.now }
    {
        self.bytes.as_ref().as_slice()
    }

    /// How many bytes there are.
    pub fn len(&self) -> u64
        ensures { result ≡ length self.now }
    {
        self.bytes.as_ref().len()
    }
}
