// What threads may pass to each other, and what they may share. Nothing runs here: that it is proved shows it.
use crate::{ClaimSeat, ClaimTable};

fn is_sent<T: Send>() {}

fn is_shared<T: Send + Sync>() {}

fn seats_are_sent() {
    is_sent::<ClaimSeat>();
}

fn tables_are_shared() {
    is_shared::<ClaimTable>();
}
