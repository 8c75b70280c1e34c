#![tactic(auto)]

// Tests of refusals, alignment and the data types. Expected values are from the OpenType
// specification's data types and from the examples of the original's own documentation.
#[cfg(test)]
mod alignment;
#[cfg(test)]
mod names;
#[cfg(test)]
mod tuples;
#[cfg(test)]
mod values;
