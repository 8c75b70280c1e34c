ghost use Rattle.std.specs.Prelude.{◌≡◌, true, length};
ghost use Rattle.opentype.specs.Numbers.{big_endian, number_of};

use crate::format::Format;
use crate::unsigned::U24;
use kinds::{Kind, Scalar};
use std::marker::PhantomData;

// A number of a format as a binary data type: its bytes, the most significant first.
#[derive_where(Clone, Copy)]
pub struct BigEndian<F>(PhantomData<F>);

// OpenType's uint8, uint16, uint24 and uint32, and an unsigned number of 64 bits, for which OpenType
// has no name.
pub type U8 = BigEndian<u8>;

pub type U16Be = BigEndian<u16>;

pub type U24Be = BigEndian<U24>;

pub type U32Be = BigEndian<u32>;

pub type U64Be = BigEndian<u64>;

// OpenType's int8, int16, int32 and its signed number of 64 bits.
pub type I8 = BigEndian<i8>;

pub type I16Be = BigEndian<i16>;

pub type I32Be = BigEndian<i32>;

pub type I64Be = BigEndian<i64>;

impl<F: Format> Kind for BigEndian<F> {
    type HostType = F::HostType;

    ghost width = { F.SIZE };

    ghost fitting = { F.fitting };

    ghost bytes = { λ v. big_endian F.SIZE (F.bits v) };

    ghost value = { λ bs. F.value (number_of bs) };

    ghost lawful = { F.lawful };

    fn size() -> usize {
        F::SIZE
    }

    fn fits(v: F::HostType) -> bool {
        F::to_bits(v).is_some()
    }

    unsafe fn read_unchecked(part: &[u8]) -> F::HostType {
        value_of::<F>(part)
    }

    unsafe fn write_unchecked(v: F::HostType, out: &mut [u8]) {
        put_value::<F>(v, out);
    }
}

// The value of just the bytes that a number takes; apart from `read_unchecked`, so that a wrong one is refused at
// its contract. So is the next.
fn value_of<F: Format>(part: &[u8]) -> F::HostType
    requires long { length part.now ≡ F.SIZE }
    ensures value { result ≡ F.value (number_of part.now) }
    ensures fit { F.fitting result ≡ true }
{
    // Eight bytes of fixed memory, since the device has no heap.
    let mut bytes = [0; 8];
    bytes[8 - F::SIZE..].copy_from_slice(part);
    F::from_bits(u64::from_be_bytes(bytes))
}

// Writes a number that fits into just the bytes that it takes.
fn put_value<F: Format>(v: F::HostType, out: &mut [u8])
    requires fit { F.fitting v ≡ true }
    requires long { length out.old ≡ F.SIZE }
    ensures bytes { out.new ≡ big_endian F.SIZE (F.bits v) }
{
    if let Some(bits) = F::to_bits(v) {
        out.copy_from_slice(&bits.to_be_bytes()[8 - F::SIZE..]);
    }
}

impl<F: Format> Scalar for BigEndian<F> {
    ghost integer = { F.integer };

    ghost one = { F.one };

    fn size() -> usize {
        <F as Format>::SIZE
    }

    fn to_i128(v: F::HostType) -> i128 {
        v.into()
    }
}
