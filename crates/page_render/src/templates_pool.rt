// Templates that were parsed, for several renders at once.
use liquid_parse::Templates;
use std::alloc::Global;
use std::sync::Mutex;

/// Templates that no render has at the moment. A render takes some and gives them back; where it cannot have any at once it begins with
/// none, so nobody waits, and nothing hangs on which it has.
#[derive(Drop)]
pub(crate) struct TemplatesPool {
    free: Mutex<Vec<Templates>>,
}

impl TemplatesPool {
    pub fn new(alloc: Global) -> TemplatesPool {
        TemplatesPool {
            free: Mutex::new(Vec::new(alloc)),
        }
    }

    pub fn take(&self, alloc: Global) -> Templates {
        match self.free.try_lock() {
            Some(mut free) => match free.pop() {
                Some(templates) => templates,
                None => Templates::new(alloc),
            },
            None => Templates::new(alloc),
        }
    }

    // Where they cannot be kept, they are parsed again.
    pub fn keep(&self, templates: Templates) {
        if let Some(mut free) = self.free.try_lock() {
            let _ = free.push(templates);
        }
    }
}
