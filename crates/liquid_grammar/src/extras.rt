// What may follow something.
ghost use Rattle.std.specs.Prelude.{◌≡◌, [], IfOk};

use site_base::{Boxed, Memory, Sequence};
use std::alloc::Global;
use std::marker::Model;

/// Values one after another, which clauses see as their list. Most often there are none, so it takes less room than `Sequence`
/// where it is empty, and more where it is not.
#[derive(Drop)]
pub struct Extras<T> {
    list: Option<Boxed<Sequence<T>>>,
}

impl<T> Model for Extras<T> {
    ghost use Rattle.std.specs.Prelude.{List, [], unwrap_or};

    ghost Value = { List T };

    ghost view = { λ extras. unwrap_or extras.list [] };
}

impl<T: Drop> Extras<T> {
    pub fn from_sequence(alloc: Global, values: Sequence<T>) -> Result<Extras<T>, Memory>
        ensures { IfOk result (λ extras. extras ≡ values) }
    {
        if values.as_slice().is_empty() {
            return Ok(Extras { list: None });
        }
        let list = Some(Boxed::new(alloc, values)?);
        Ok(Extras { list })
    }
}

impl<T> Extras<T> {
    /// No values.
    pub fn none() -> Extras<T>
        ensures { result ≡ [] }
    {
        Extras { list: None }
    }

    pub fn as_slice(&self) -> &[T]
        ensures { result.now ≡ self.now }
    {
        match &self.list {
            Some(list) => list.get().as_slice(),
            None => &[],
        }
    }
}
