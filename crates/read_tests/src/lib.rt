#![tactic(auto)]

// Tests of scopes and contexts for reading, at their limits. Expected values are from the OpenType
// specification's data types and from reading the original.
#[cfg(test)]
mod contexts;
#[cfg(test)]
mod scopes;
#[cfg(test)]
mod values;
