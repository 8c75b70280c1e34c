use kinds::{Kind, write_value};
use refusals::Refusal;
use scalars::{I8, I16Be, I32Be, I64Be, U8, U16Be, U24Be, U32Be, U64Be};

// What eight bytes of 0xEE hold once the value is written to their front.
fn written<K: Kind>(v: K::HostType) -> (Result<usize, Refusal>, [u8; 8]) {
    let mut memory = [0xEE; 8];
    let answer = write_value::<K>(&mut memory, v);
    (answer, memory)
}

#[test]
fn unsigned_numbers_are_big_endian(rt: HostRuntime) {
    assert_eq!(rt;
        written::<U8>(0xAB),
        (Ok(1), [0xAB, 0xEE, 0xEE, 0xEE, 0xEE, 0xEE, 0xEE, 0xEE])
    );
    assert_eq!(rt;
        written::<U16Be>(0x0102),
        (Ok(2), [1, 2, 0xEE, 0xEE, 0xEE, 0xEE, 0xEE, 0xEE])
    );
    assert_eq!(rt;
        written::<U24Be>(0x010203),
        (Ok(3), [1, 2, 3, 0xEE, 0xEE, 0xEE, 0xEE, 0xEE])
    );
    assert_eq!(rt;
        written::<U32Be>(0x01020304),
        (Ok(4), [1, 2, 3, 4, 0xEE, 0xEE, 0xEE, 0xEE])
    );
    assert_eq!(rt;
        written::<U64Be>(0x0102030405060708),
        (Ok(8), [1, 2, 3, 4, 5, 6, 7, 8])
    );
}

#[test]
fn signed_numbers_are_two_s_complement(rt: HostRuntime) {
    assert_eq!(rt;
        written::<I8>(-1),
        (Ok(1), [0xFF, 0xEE, 0xEE, 0xEE, 0xEE, 0xEE, 0xEE, 0xEE])
    );
    assert_eq!(rt;
        written::<I8>(-128),
        (Ok(1), [0x80, 0xEE, 0xEE, 0xEE, 0xEE, 0xEE, 0xEE, 0xEE])
    );
    assert_eq!(rt;
        written::<I16Be>(-1),
        (Ok(2), [0xFF, 0xFF, 0xEE, 0xEE, 0xEE, 0xEE, 0xEE, 0xEE])
    );
    assert_eq!(rt;
        written::<I16Be>(-32768),
        (Ok(2), [0x80, 0, 0xEE, 0xEE, 0xEE, 0xEE, 0xEE, 0xEE])
    );
    assert_eq!(rt;
        written::<I32Be>(-2),
        (Ok(4), [0xFF, 0xFF, 0xFF, 0xFE, 0xEE, 0xEE, 0xEE, 0xEE])
    );
    assert_eq!(rt;
        written::<I64Be>(i64::MIN),
        (Ok(8), [0x80, 0, 0, 0, 0, 0, 0, 0])
    );
    assert_eq!(rt;
        written::<I64Be>(i64::MAX),
        (Ok(8), [0x7F, 0xFF, 0xFF, 0xFF, 0xFF, 0xFF, 0xFF, 0xFF])
    );
}

#[test]
fn what_passes_24_bits_does_not_fit(rt: HostRuntime) {
    assert_eq!(rt;
        written::<U24Be>(0xFFFFFF),
        (Ok(3), [0xFF, 0xFF, 0xFF, 0xEE, 0xEE, 0xEE, 0xEE, 0xEE])
    );
    assert_eq!(rt;
        written::<U24Be>(0x1000000),
        (Err(Refusal::BadValue), [0xEE; 8])
    );
    assert_eq!(rt;
        written::<U24Be>(u32::MAX),
        (Err(Refusal::BadValue), [0xEE; 8])
    );
}

#[test]
fn memory_may_be_just_long_enough(rt: HostRuntime) {
    let mut two = [0; 2];
    assert_eq!(rt; write_value::<U16Be>(&mut two, 0x0102), Ok(2));
    assert_eq!(rt; two, [1, 2]);
    assert_eq!(rt; write_value::<U24Be>(&mut two, 3), Err(Refusal::NoSpace));
    assert_eq!(rt;
        write_value::<U24Be>(&mut two, 0x1000000),
        Err(Refusal::BadValue)
    );
    assert_eq!(rt; two, [1, 2]);
    assert_eq!(rt; write_value::<U8>(&mut [], 1), Err(Refusal::NoSpace));
}
