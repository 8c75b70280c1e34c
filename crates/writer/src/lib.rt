#![tactic(auto)]

mod writer;

pub use writer::{Placeholder, Run, Writer};
