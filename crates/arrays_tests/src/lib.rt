#![tactic(auto)]

// Tests of arrays, cursors, searches and the table directory. Expected values are from reading the
// original, but for strides above the size, which follow the format, and from the OpenType specification.
#[cfg(test)]
mod cursors;
#[cfg(test)]
mod items;
#[cfg(test)]
mod searches;
#[cfg(test)]
mod tables;
