#![tactic(auto)]

mod scope;

pub use scope::{ReadCtxt, ReadScope};
