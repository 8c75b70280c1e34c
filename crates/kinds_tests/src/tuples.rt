use kinds::{Kind, Scalar, write_value};
use refusals::Refusal;
use scalars::{I16Be, U8, U16Be, U24Be, U64Be};

#[test]
fn sizes_add_up(rt: HostRuntime) {
    assert_eq!(rt; <(U8, U24Be)>::size(), 4);
    assert_eq!(rt; <(U8, U16Be, U24Be)>::size(), 6);
    assert_eq!(rt; <(U64Be, U64Be, U64Be, U64Be)>::size(), 32);
}

#[test]
fn parts_follow_one_another(rt: HostRuntime) {
    let mut memory = [0xEE; 9];
    assert_eq!(rt; write_value::<(U8, I16Be)>(&mut memory, (1, -2)), Ok(3));
    assert_eq!(rt; memory, [1, 0xFF, 0xFE, 0xEE, 0xEE, 0xEE, 0xEE, 0xEE, 0xEE]);
    assert_eq!(rt;
        write_value::<(U16Be, U8, U24Be)>(&mut memory, (0x0102, 3, 0x040506)),
        Ok(6)
    );
    assert_eq!(rt; memory, [1, 2, 3, 4, 5, 6, 0xEE, 0xEE, 0xEE]);
    assert_eq!(rt;
        write_value::<(U8, U16Be, U8, U24Be)>(&mut memory, (9, 0x0807, 6, 0x050403)),
        Ok(7)
    );
    assert_eq!(rt; memory, [9, 8, 7, 6, 5, 4, 3, 0xEE, 0xEE]);
}

#[test]
fn a_part_that_does_not_fit_leaves_nothing_written(rt: HostRuntime) {
    let mut memory = [0xEE; 8];
    assert_eq!(rt;
        write_value::<(U8, U24Be)>(&mut memory, (1, 0x1000000)),
        Err(Refusal::BadValue)
    );
    assert_eq!(rt;
        write_value::<(U24Be, U8)>(&mut memory, (0x1000000, 1)),
        Err(Refusal::BadValue)
    );
    assert_eq!(rt;
        write_value::<(U8, U8, U24Be)>(&mut memory, (1, 2, u32::MAX)),
        Err(Refusal::BadValue)
    );
    assert_eq!(rt;
        write_value::<(U8, U24Be, U8, U8)>(&mut memory, (1, u32::MAX, 3, 4)),
        Err(Refusal::BadValue)
    );
    assert_eq!(rt;
        write_value::<(U64Be, U8)>(&mut memory, (1, 2)),
        Err(Refusal::NoSpace)
    );
    assert_eq!(rt; memory, [0xEE; 8]);
}
