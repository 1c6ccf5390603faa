//! Texts, bytes and the outside world of a session: files, the output, and the stores of databases.
#![tactic(auto)]

mod byte_map;
mod bytes;
mod charge;
mod compact;
mod compare;
mod fault;
mod few;
mod files;
mod keeper;
mod many;
mod row;
mod sink;
mod text;
mod text_list;

pub use byte_map::ByteMap;
pub use bytes::Bytes;
pub use charge::Charge;
pub use compare::{are_same, begin_with};
pub use fault::{Halt, KeepFault, OutFault, RowFault};
pub use files::Files;
pub use keeper::{Keeper, Shelf};
pub use many::Many;
pub use row::{RowIn, RowOut, STORED_LIMIT};
pub use sink::Sink;
pub use text::Text;
pub use text_list::TextList;
