// The code of a value that was seen.
ghost use Rattle.std.specs.Prelude.{◌≡◌, IfOk};
ghost use Rattle.site_base.specs.Code.{code};
ghost use Rattle.site_base.specs.View.{plain};

use site_base::{self, Memory, SharedBytes, Value};
use std::alloc::Global;
use std::marker::Model;

/// The code of a value, which may have several holders. Clauses see its bytes.
#[derive(Drop)]
pub(crate) struct SeenCode {
    bytes: SharedBytes,
}

impl Model for SeenCode {
    ghost use Rattle.std.specs.Prelude.{List, ℕ};

    ghost Value = { List ℕ };

    ghost view = { λ seen. seen.bytes };
}

impl SeenCode {
    pub(crate) fn of(alloc: Global, value: &Value) -> Result<SeenCode, Memory>
        ensures { IfOk result (λ seen. seen ≡ code (plain value.now)) }
    {
        Ok(SeenCode {
            bytes: SharedBytes::from_vec(alloc, site_base::code(alloc, value)?)?,
        })
    }

    /// The code that a world keeps.
    pub(crate) fn kept(bytes: SharedBytes) -> SeenCode
        ensures { result ≡ bytes }
    {
        SeenCode { bytes }
    }

    pub(crate) fn as_slice(&self) -> &[u8]
        ensures { result.now ≡ self.now }
    {
        self.bytes.as_slice()
    }

    /// A further holder of the same code.
    pub(crate) fn share(&self) -> Result<SeenCode, Memory>
        ensures { IfOk result (λ seen. seen ≡ self.now) }
    {
        Ok(SeenCode {
            bytes: self.bytes.share()?,
        })
    }
}
