#![tactic(auto)]

// Tests of the writer and its register, at their limits. Expected values are from the OpenType
// specification's data types and from the rules in docs/WRITER.md.
#[cfg(test)]
mod few;
#[cfg(test)]
mod filling;
#[cfg(test)]
mod placeholder_arrays;
#[cfg(test)]
mod taking;
