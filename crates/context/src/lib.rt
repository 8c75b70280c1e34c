#![tactic(auto)]

mod context;
mod values;

pub use context::{WriteContext, lies_before};
pub use values::{write, write_scope, write_value_at};
