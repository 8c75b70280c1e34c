ghost use Rattle.std.specs.Prelude.{refl};
ghost use Rattle.std.specs.Int.{w8, w16, w32, w64};
ghost use Rattle.opentype.specs.Numbers.{signed_fits, complement, signed};
ghost use Rattle.scalars.specs.Formats.{signed_lawful};
ghost use Rattle.std.proofs.Common.{rules};

use crate::format::Format;

// The signed formats. As with the unsigned ones, each says only its size and its casts.
impl Format for i8 {
    type HostType = i8;

    ghost SIZE = { 1 };

    ghost fitting = { signed_fits 1 };

    ghost integer = { λ v. v };

    ghost bits = { complement 1 };

    ghost value = { signed 1 };

    ghost few = { Prim.search rules };

    ghost lawful = { signed_lawful w8 1 refl refl };

    ghost one = { Prim.search rules };

    ghost exact = { λ v n e. e };

    const SIZE: usize = 1;

    fn to_bits(v: i8) -> Option<u64> {
        Some(u64::from(v.cast_unsigned()))
    }

    fn from_bits(n: u64) -> i8 {
        ((n % 0x100) as u8).cast_signed()
    }
}

impl Format for i16 {
    type HostType = i16;

    ghost SIZE = { 2 };

    ghost fitting = { signed_fits 2 };

    ghost integer = { λ v. v };

    ghost bits = { complement 2 };

    ghost value = { signed 2 };

    ghost few = { Prim.search rules };

    ghost lawful = { signed_lawful w16 2 refl refl };

    ghost one = { Prim.search rules };

    ghost exact = { λ v n e. e };

    const SIZE: usize = 2;

    fn to_bits(v: i16) -> Option<u64> {
        Some(u64::from(v.cast_unsigned()))
    }

    fn from_bits(n: u64) -> i16 {
        ((n % 0x1_0000) as u16).cast_signed()
    }
}

impl Format for i32 {
    type HostType = i32;

    ghost SIZE = { 4 };

    ghost fitting = { signed_fits 4 };

    ghost integer = { λ v. v };

    ghost bits = { complement 4 };

    ghost value = { signed 4 };

    ghost few = { Prim.search rules };

    ghost lawful = { signed_lawful w32 4 refl refl };

    ghost one = { Prim.search rules };

    ghost exact = { λ v n e. e };

    const SIZE: usize = 4;

    fn to_bits(v: i32) -> Option<u64> {
        Some(u64::from(v.cast_unsigned()))
    }

    fn from_bits(n: u64) -> i32 {
        ((n % 0x1_0000_0000) as u32).cast_signed()
    }
}

impl Format for i64 {
    type HostType = i64;

    ghost SIZE = { 8 };

    ghost fitting = { signed_fits 8 };

    ghost integer = { λ v. v };

    ghost bits = { complement 8 };

    ghost value = { signed 8 };

    ghost few = { Prim.search rules };

    ghost lawful = { signed_lawful w64 8 refl refl };

    ghost one = { Prim.search rules };

    ghost exact = { λ v n e. e };

    const SIZE: usize = 8;

    fn to_bits(v: i64) -> Option<u64> {
        Some(v.cast_unsigned())
    }

    fn from_bits(n: u64) -> i64 {
        n.cast_signed()
    }
}
