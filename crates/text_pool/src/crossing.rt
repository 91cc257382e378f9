// What threads may share. Nothing runs here: that it is proved shows it.
use crate::{Pool, TextId};

fn is_shared<T: Send + Sync>() {}

fn pools_are_shared() {
    is_shared::<Pool>();
}

fn ids_are_shared() {
    is_shared::<TextId>();
}
