#![tactic(auto)]

mod big_endian;
mod format;
mod signed;
mod standard;
mod unsigned;

pub use big_endian::{BigEndian, I8, I16Be, I32Be, I64Be, U8, U16Be, U24Be, U32Be, U64Be};
pub use format::Format;
pub use standard::data_types;
pub use unsigned::U24;
