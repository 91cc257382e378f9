//! What is looked up while an item is rendered, the record of it, and what rests on that record: whether a
//! render that was kept still tells what rendering anew would give.
#![tactic(auto)]

mod asking;
mod checking;
mod crossing;
mod entry;
mod fresh_read;
mod kept_entry;
mod key;
mod key_table;
mod look;
mod notes;
mod noting;
mod number_checking;
mod numbered;
mod numbered_entry;
mod outcome;
mod read_shares;
mod read_store;
mod record;
mod record_builder;
mod recorder;
mod renderer;
mod seen_code;
mod shared_entry;
mod shared_key;
mod stop;
mod tally;
mod traced;
mod world;

pub use asking::ask;
pub use checking::check;
pub use entry::Entry;
pub use kept_entry::KeptEntry;
pub use key::Key;
pub use look::{Answer, Look};
pub use notes::Notes;
pub use noting::check_noted;
pub use number_checking::check_numbers;
pub use numbered::NumberedRecord;
pub use numbered_entry::NumberedEntry;
pub use outcome::{Agreement, Checked, Outcome};
pub use read_shares::ReadShares;
pub use read_store::ReadStore;
pub use record::Record;
pub use renderer::{ItemMeaning, Rendered, Renderer};
pub use shared_entry::SharedEntry;
pub use shared_key::SharedKey;
pub use stop::Stop;
pub use tally::Tally;
pub use traced::{Traced, render_sharing, render_traced};
pub use world::{Finished, World};
