//! What every crate of sitebuild stands on: paths, texts, the faults of a site, the ends where bytes
//! come from and go to, and the definitions and laws that their contracts share.
#![tactic(auto)]

mod boxed;
mod bytes;
mod errors;
mod faults;
mod item_name;
mod limits;
mod path;
mod path_map;
mod sequence;
mod settings;
mod shared;
mod sink;
mod source;
mod text;
mod text_list;
mod value;

pub use boxed::Boxed;
pub use bytes::FileBytes;
pub use errors::{Failed, ListError, Memory, ReadError};
pub use faults::{FaultKind, SiteFault, YamlKind};
pub use item_name::ItemName;
pub use limits::{LAST_MOMENT, MOST_BYTES};
pub use path::{PathError, SitePath};
pub use path_map::PathMap;
pub use sequence::Sequence;
pub use settings::Settings;
pub use shared::SharedBytes;
pub use sink::{ByteSink, MemorySink};
pub use source::{ByteSource, MemoryInput};
pub use text::Text;
pub use text_list::TextList;
pub use value::{
    Hash, List, Pair, Unlike, Value, code, compare, copy, equals, is_true, same_code, value_text,
};

/// Paths in an order.
pub type PathList = Sequence<SitePath>;

/// The words of a command line, without the program's name.
pub type Words = TextList;
