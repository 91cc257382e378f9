// What gives the placeholders of a template their values.
ghost use Rattle.std.specs.Prelude.{◌≡◌, ℕ, List, Option, IfOk};
ghost use Rattle.permalinks.specs.declared.placeholder.Placeholder.{Placeholder};

use crate::placeholder::Placeholder;
use site_base::{Memory, Text};
use std::alloc::Global;

/// What gives the placeholders of a template their values.
pub trait Values {
    /// What each placeholder stands for, where it stands for something.
    ghost stands_for: { Self → Placeholder → Option (List ℕ) };

    /// What a placeholder stands for; `None` where it stands for nothing.
    fn value(&self, alloc: Global, placeholder: Placeholder) -> Result<Option<Text>, Memory>
        ensures { IfOk result (λ text. text ≡ stands_for self.now placeholder) };
}
