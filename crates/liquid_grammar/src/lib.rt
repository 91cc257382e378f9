//! What the texts of templates say: their pieces, and the expressions, conditions and parameters in tags.
//!
//! The definitions stand in `specs/`; the types here are those that they and the readers share.
#![tactic(auto)]

mod condition;
mod expression;
mod extras;
mod item;
mod literal;
mod mark;
mod operand;
mod piece;
mod step;
mod tag;
mod tag_kind;

pub use condition::{Condition, Joined, Test};
pub use expression::{Expr, Filter, Parameter, Params};
pub use extras::Extras;
pub use item::{Block, BlockName, Item, Leaf, Move, Part, Verbatim};
pub use literal::Literal;
pub use mark::{Comparison, Joint, Mark};
pub use operand::Operand;
pub use piece::{Front, Piece, PieceKind, Span};
pub use step::Step;
pub use tag::{Assign, Cycle, Include, Loop, LoopKey, LoopKind, LoopPart, NamePart, NamePlace};
pub use tag_kind::{LeafName, PartName, TagKind};
