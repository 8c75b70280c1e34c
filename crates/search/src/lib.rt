#![tactic(auto)]

mod binary;
mod number;
mod probe;
mod tuple;

pub use binary::binary_search_by;
pub use number::Number;
pub use probe::Probe;
pub use tuple::FirstNumber;
