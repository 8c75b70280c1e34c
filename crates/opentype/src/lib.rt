#![tactic(auto)]

mod align;

pub use align::{long_align, safe_from, word_align};
