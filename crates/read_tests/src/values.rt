use read::{ReadCtxt, ReadScope};
use refusals::Refusal;
use scalars::U24Be;
use std::test::Fail;

fn eight(bytes: &[u8; 8]) -> ReadCtxt<'_> {
    ReadScope::new(bytes).ctxt()
}

#[test]
fn unsigned_numbers_are_read_most_significant_byte_first(rt: HostRuntime) {
    let bytes = [1, 2, 3, 4, 5, 6, 7, 8];
    assert_eq!(rt; eight(&bytes).read_u8(), Ok(1));
    assert_eq!(rt; eight(&bytes).read_u16be(), Ok(0x0102));
    assert_eq!(rt; eight(&bytes).read::<U24Be>(), Ok(0x010203));
    assert_eq!(rt; eight(&bytes).read_u32be(), Ok(0x01020304));
    assert_eq!(rt; eight(&bytes).read_u64be(), Ok(0x0102030405060708));
}

#[test]
fn the_least_signed_numbers(rt: HostRuntime) {
    let bytes = [0x80, 0, 0, 0, 0, 0, 0, 0];
    assert_eq!(rt; eight(&bytes).read_i8(), Ok(-128));
    assert_eq!(rt; eight(&bytes).read_i16be(), Ok(-32768));
    assert_eq!(rt; eight(&bytes).read_i32be(), Ok(i32::MIN));
    assert_eq!(rt; eight(&bytes).read_i64be(), Ok(i64::MIN));
}

#[test]
fn all_ones_are_minus_one_or_the_largest(rt: HostRuntime) {
    let bytes = [0xFF; 8];
    assert_eq!(rt; eight(&bytes).read_i8(), Ok(-1));
    assert_eq!(rt; eight(&bytes).read_i16be(), Ok(-1));
    assert_eq!(rt; eight(&bytes).read_i32be(), Ok(-1));
    assert_eq!(rt; eight(&bytes).read_i64be(), Ok(-1));
    assert_eq!(rt; eight(&bytes).read::<U24Be>(), Ok(0xFFFFFF));
    assert_eq!(rt; eight(&bytes).read_u64be(), Ok(u64::MAX));
}

#[test]
fn one_byte_short_is_refused(rt: HostRuntime) -> Result<(), Fail> {
    let seven = ReadScope::new(&[0; 7]);
    assert_eq!(rt; seven.ctxt().read_u64be(), Err(Refusal::BadEof));
    assert_eq!(rt; seven.ctxt().read_i64be(), Err(Refusal::BadEof));
    assert_eq!(rt; seven.offset(4)?.ctxt().read_u32be(), Err(Refusal::BadEof));
    assert_eq!(rt; seven.offset(4)?.ctxt().read_i32be(), Err(Refusal::BadEof));
    assert_eq!(rt; seven.offset(5)?.read::<U24Be>(), Err(Refusal::BadEof));
    assert_eq!(rt; seven.offset(6)?.ctxt().read_u16be(), Err(Refusal::BadEof));
    assert_eq!(rt; seven.offset(6)?.ctxt().read_i16be(), Err(Refusal::BadEof));
    assert_eq!(rt; seven.offset(7)?.ctxt().read_i8(), Err(Refusal::BadEof));
    Ok(())
}
