#![tactic(auto)]

mod lines;
mod tables;
mod tags;

pub use lines::{listing, table_named};
pub use tables::{Directory, Header, TableRecord, read_directory};
pub use tags::tag_from_text;
