ghost use Rattle.std.specs.Prelude.{pos};
ghost use Rattle.opentype.specs.Numbers.{unsigned_fits};
ghost use Rattle.scalars.specs.Formats.{unsigned_lawful};
ghost use Rattle.std.proofs.Common.{rules};

use crate::format::Format;

// The unsigned formats. Each says only its size and its casts, which Rust writes type by type. (The library has a
// trait for `as`, but its contract does not tell the range of a type parameter, so each format would have to
// prove more than it says here.)

// The format of 24 bits, whose host has 32: 0xFFFFFF is the largest that fits.
#[derive(Clone, Copy)]
pub enum U24 {}

impl Format for u8 {
    type HostType = u8;

    ghost SIZE = { 1 };

    ghost fitting = { unsigned_fits 1 };

    ghost integer = { pos };

    ghost bits = { λ v. v };

    ghost value = { λ n. n };

    ghost few = { Prim.search rules };

    ghost lawful = { unsigned_lawful 1 };

    ghost one = { Prim.search rules };

    ghost exact = { λ v n e. e };

    const SIZE: usize = 1;

    fn to_bits(v: u8) -> Option<u64> {
        Some(u64::from(v))
    }

    fn from_bits(n: u64) -> u8 {
        (n % 0x100) as u8
    }
}

impl Format for u16 {
    type HostType = u16;

    ghost SIZE = { 2 };

    ghost fitting = { unsigned_fits 2 };

    ghost integer = { pos };

    ghost bits = { λ v. v };

    ghost value = { λ n. n };

    ghost few = { Prim.search rules };

    ghost lawful = { unsigned_lawful 2 };

    ghost one = { Prim.search rules };

    ghost exact = { λ v n e. e };

    const SIZE: usize = 2;

    fn to_bits(v: u16) -> Option<u64> {
        Some(u64::from(v))
    }

    fn from_bits(n: u64) -> u16 {
        (n % 0x1_0000) as u16
    }
}

impl Format for U24 {
    type HostType = u32;

    ghost SIZE = { 3 };

    ghost fitting = { unsigned_fits 3 };

    ghost integer = { pos };

    ghost bits = { λ v. v };

    ghost value = { λ n. n };

    ghost few = { Prim.search rules };

    ghost lawful = { unsigned_lawful 3 };

    ghost one = { Prim.search rules };

    ghost exact = { λ v n e. e };

    const SIZE: usize = 3;

    fn to_bits(v: u32) -> Option<u64> {
        (v <= 0xFFFFFF).then_some(u64::from(v))
    }

    fn from_bits(n: u64) -> u32 {
        (n % 0x100_0000) as u32
    }
}

impl Format for u32 {
    type HostType = u32;

    ghost SIZE = { 4 };

    ghost fitting = { unsigned_fits 4 };

    ghost integer = { pos };

    ghost bits = { λ v. v };

    ghost value = { λ n. n };

    ghost few = { Prim.search rules };

    ghost lawful = { unsigned_lawful 4 };

    ghost one = { Prim.search rules };

    ghost exact = { λ v n e. e };

    const SIZE: usize = 4;

    fn to_bits(v: u32) -> Option<u64> {
        Some(u64::from(v))
    }

    fn from_bits(n: u64) -> u32 {
        (n % 0x1_0000_0000) as u32
    }
}

impl Format for u64 {
    type HostType = u64;

    ghost SIZE = { 8 };

    ghost fitting = { unsigned_fits 8 };

    ghost integer = { pos };

    ghost bits = { λ v. v };

    ghost value = { λ n. n };

    ghost few = { Prim.search rules };

    ghost lawful = { unsigned_lawful 8 };

    ghost one = { Prim.search rules };

    ghost exact = { λ v n e. e };

    const SIZE: usize = 8;

    fn to_bits(v: u64) -> Option<u64> {
        Some(v)
    }

    fn from_bits(n: u64) -> u64 {
        n
    }
}
