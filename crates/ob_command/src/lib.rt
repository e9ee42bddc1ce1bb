//! The commands of the book, and their texts.
//!
//! Keeps the twelve kinds of command. The type of each field holds exactly the values that reading
//! it can give. Promises the body text of each command, that two different commands have two
//! different texts, and that a body text, and no other text, is read back as its command. Promises
//! that a row is read as its reference and its command, or refused with its leftmost bad column.
//! Used by `ob_state` and `ob_book`, which apply commands, by the storage crates, which store their
//! texts, and by `ob_import`, `ob_http_replies` and `ob_http_routes`, which read rows and requests.
#![tactic(auto)]

mod body;
mod civil;
mod command;
mod device;
mod ends;
mod fields;
mod kind;
mod moment;
mod number;
mod operation;
mod read;
mod row;
mod service;
mod spelling;
mod split;
mod word;

pub use body::body_text;
pub use civil::CivilDate;
pub use command::Command;
pub use device::{NewDevice, plain_end, plain_law};
pub use ends::Ends;
pub use moment::Moment;
pub use number::{CauseCode, FeederNumber, Serial};
pub use operation::Operation;
pub use read::{bodies_law, read_body};
pub use row::{read_row, rows_law};
pub use service::Service;
