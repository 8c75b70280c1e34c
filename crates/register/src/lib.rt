#![tactic(auto)]

mod register;

pub use register::{Event, Places, Register, Row, State, Tally};
