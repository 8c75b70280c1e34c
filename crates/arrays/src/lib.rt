#![tactic(auto)]

mod array;
mod cursor;

pub use array::{ReadArray, read_array, read_array_stride};
pub use cursor::{ReadArrayIter, ReadArrayResIter};
