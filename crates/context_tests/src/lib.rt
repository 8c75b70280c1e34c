#![tactic(auto)]

// Tests of contexts for writing, at the limits of their space and of what was written. Expected values
// are from the OpenType specification's data types and from reading the original.
#[cfg(test)]
mod buffers;
#[cfg(test)]
mod counters;
#[cfg(test)]
mod lent;
#[cfg(test)]
mod values;
