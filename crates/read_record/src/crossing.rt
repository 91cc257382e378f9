// What threads may pass to each other, and what they may share. Nothing runs here: that it is proved shows it.
use crate::{
    Entry, ItemMeaning, NumberedEntry, Outcome, ReadShares, ReadStore, SharedEntry, Tally,
};

fn is_sent<T: Send>() {}

fn is_shared<T: Send + Sync>() {}

fn outcomes_are_shared() {
    is_shared::<Outcome>();
}

fn tallies_are_sent() {
    is_sent::<Tally>();
}

fn entries_are_shared<M: ItemMeaning + Send + Sync>() {
    is_shared::<Entry<M>>();
}

fn shared_entries_are_shared<M: ItemMeaning + Send + Sync>() {
    is_shared::<SharedEntry<M>>();
}

fn numbered_entries_are_shared<M: ItemMeaning + Send + Sync>() {
    is_shared::<NumberedEntry<M>>();
}

fn stores_are_shared() {
    is_shared::<ReadStore>();
}

fn shares_are_sent() {
    is_sent::<ReadShares>();
}
