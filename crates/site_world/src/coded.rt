// Values with their codes.
ghost use Rattle.std.specs.Prelude.{◌≡◌, IfOk};
ghost use Rattle.site_base.specs.Code.{code};
ghost use Rattle.site_base.specs.View.{plain};

use site_base::{self, Memory, SharedBytes, Value};
use std::alloc::Global;
use std::marker::Model;

/// A value that many share, with its code, which clauses see as the value's plain tree.
pub(crate) struct Coded {
    value: Value,
    code: SharedBytes,
}

impl Model for Coded {
    ghost use Rattle.std.specs.Prelude.{◌≡◌};
    ghost use Rattle.site_base.specs.Code.{code as code_of};
    ghost use Rattle.site_base.specs.Plain.{Plain};
    ghost use Rattle.site_base.specs.View.{plain};
    ghost use Rattle.site_world.specs.Codes.{flat_plain};

    ghost Value = { Plain };

    ghost coded = { flat_plain };

    ghost view = { λ c. plain c.value };

    ghost invariant = { λ c. c.code ≡ code_of (plain c.value) };
}

// A call of its own, so that no proof goes by cases where a value is dropped.
impl Drop for Coded {
    fn drop(self) {
        let Coded { value: _, code: _ } = self;
    }
}

impl Coded {
    /// A value, of which further holders take little from now on, with its code.
    pub(crate) fn new(alloc: Global, value: Value) -> Result<Coded, Memory>
        ensures { IfOk result (λ made. made ≡ plain value) }
    {
        let value = value.into_shared()?;
        let code = SharedBytes::from_vec(alloc, site_base::code(alloc, &value)?)?;
        Ok(Coded { value, code })
    }

    pub(crate) fn value(&self) -> &Value
        ensures { plain result.now ≡ self.now }
    {
        &self.value
    }

    pub(crate) fn code(&self) -> &SharedBytes
        ensures { result.now ≡ code self.now }
    {
        &self.code
    }
}
