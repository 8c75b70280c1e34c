use arrays::{ReadArray, read_array, read_array_stride};
use read::ReadScope;
use refusals::Refusal;
use scalars::{U8, U16Be};
use std::test::Fail;

const SIX: [u8; 6] = [0, 1, 0xAA, 0, 2, 0xBB];

// Two numbers, three bytes apart.
fn two() -> Result<ReadArray<'static, U16Be>, Refusal> {
    let mut ctxt = ReadScope::new(&SIX).ctxt();
    read_array_stride(&mut ctxt, 2, 3)
}

#[test]
fn items_lie_a_stride_apart(rt: HostRuntime) -> Result<(), Fail> {
    let array = two()?;
    assert_eq!(rt; array.get_item(0), Some(1));
    assert_eq!(rt; array.get_item(1), Some(2));
    assert_eq!(rt; array.get_item(2), None);
    assert_eq!(rt; array.read_item(1), Ok(2));
    assert_eq!(rt; array.read_item(2), Err(Refusal::BadIndex));
    assert_eq!(rt; array.read_item(usize::MAX), Err(Refusal::BadIndex));
    assert_eq!(rt; array.last(), Some(2));
    assert_eq!(rt; array.check_index(1), Ok(()));
    assert_eq!(rt; array.check_index(2), Err(Refusal::BadIndex));
    assert_eq!(rt; array.is_empty(), false);
    Ok(())
}

#[test]
fn items_are_copied_to_the_front(rt: HostRuntime) -> Result<(), Fail> {
    let array = two()?;
    let mut three = [9; 3];
    assert_eq!(rt; array.read_to_vec(&mut three), Ok(2));
    assert_eq!(rt; three, [1, 2, 9]);
    let mut one = [9; 1];
    assert_eq!(rt; array.read_to_vec(&mut one), Err(Refusal::NoSpace));
    assert_eq!(rt; one, [9]);
    Ok(())
}

#[test]
fn whole_strides_are_taken(rt: HostRuntime) -> Result<(), Fail> {
    let mut ctxt = ReadScope::new(&SIX).ctxt();
    assert_eq!(rt;
        read_array_stride::<(U8, U8)>(&mut ctxt, 1, 3)?.get_item(0),
        Some((0, 1))
    );
    assert_eq!(rt; ctxt.scope().data(), [0, 2, 0xBB].as_slice());
    assert!(rt;
        matches!(
            read_array_stride::<U16Be>(&mut ctxt, 2, 2),
            Err(Refusal::BadEof)
        )
    );
    assert!(rt;
        matches!(
            read_array_stride::<U16Be>(&mut ctxt, 2, 1),
            Err(Refusal::BadValue)
        )
    );
    assert_eq!(rt; ctxt.scope().data(), [0, 2, 0xBB].as_slice());
    assert_eq!(rt; read_array::<U8>(&mut ctxt, 3)?.last(), Some(0xBB));
    assert_eq!(rt; ctxt.bytes_available(), false);
    Ok(())
}

#[test]
fn the_largest_counts(rt: HostRuntime) -> Result<(), Fail> {
    let mut ctxt = ReadScope::new(&SIX).ctxt();
    assert!(rt;
        matches!(
            read_array::<U16Be>(&mut ctxt, 9_223_372_036_854_775_808),
            Err(Refusal::Overflow)
        )
    );
    assert!(rt;
        matches!(
            read_array::<U16Be>(&mut ctxt, 9_223_372_036_854_775_807),
            Err(Refusal::BadEof)
        )
    );
    assert!(rt; matches!(read_array::<U16Be>(&mut ctxt, 4), Err(Refusal::BadEof)));
    assert!(rt;
        matches!(
            read_array_stride::<U16Be>(&mut ctxt, 2, usize::MAX),
            Err(Refusal::Overflow)
        )
    );
    assert_eq!(rt; ctxt.scope().data().len(), 6);
    assert_eq!(rt; read_array::<U16Be>(&mut ctxt, 0)?.last(), None);
    let none: ReadArray<'static, U16Be> = ReadArray::empty();
    assert_eq!(rt; none.is_empty(), true);
    assert_eq!(rt; none.get_item(0), None);
    Ok(())
}
