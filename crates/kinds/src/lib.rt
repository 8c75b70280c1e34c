#![tactic(auto)]

mod kind;
mod pair;
mod quad;
mod scalar;
mod standard;
mod triple;
mod write;

pub use kind::Kind;
pub use scalar::Scalar;
pub use standard::tuple_parts;
pub use write::write_value;
