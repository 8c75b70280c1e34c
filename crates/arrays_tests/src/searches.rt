use arrays::{ReadArray, read_array, read_array_stride};
use read::ReadScope;
use refusals::Refusal;
use scalars::{I8, U8};
use search::{FirstNumber, Number, binary_search_by};
use std::test::Fail;

fn look(data: &[u8], want: u8) -> Result<usize, usize> {
    let mut ctxt = ReadScope::new(data).ctxt();
    let array = read_array::<U8>(&mut ctxt, data.len()).map_err(|_| usize::MAX)?;
    binary_search_by(&array, &Number::<U8>::new(want))
}

#[test]
fn found_or_where_it_would_go_in(rt: HostRuntime) {
    assert_eq!(rt; look(&[3, 5, 9], 5), Ok(1));
    assert_eq!(rt; look(&[3, 5, 9], 6), Err(2));
    assert_eq!(rt; look(&[3, 5, 9], 0), Err(0));
    assert_eq!(rt; look(&[3, 5, 9], 10), Err(3));
    assert_eq!(rt; look(&[], 1), Err(0));
    assert_eq!(rt; look(&[4], 4), Ok(0));
}

#[test]
fn several_equal_items_and_no_order(rt: HostRuntime) {
    assert_eq!(rt; look(&[1, 1, 1, 1], 1), Ok(2));
    assert_eq!(rt; look(&[1, 2, 2, 2, 3], 2), Ok(2));
    assert_eq!(rt; look(&[9, 1, 5], 9), Err(3));
}

#[test]
fn signed_numbers_are_in_order(rt: HostRuntime) -> Result<(), Fail> {
    let mut ctxt = ReadScope::new(&[0x80, 0xFF, 0, 0x7F]).ctxt();
    let array = read_array::<I8>(&mut ctxt, 4)?;
    assert_eq!(rt; binary_search_by(&array, &Number::<I8>::new(-128)), Ok(0));
    assert_eq!(rt; binary_search_by(&array, &Number::<I8>::new(-1)), Ok(1));
    assert_eq!(rt; binary_search_by(&array, &Number::<I8>::new(1)), Err(3));
    Ok(())
}

#[test]
fn tuples_at_a_stride_by_their_first_number(rt: HostRuntime) -> Result<(), Fail> {
    let mut ctxt = ReadScope::new(&[2, 20, 0, 4, 40, 0, 6, 60, 0]).ctxt();
    let array: ReadArray<'_, (U8, U8)> = read_array_stride(&mut ctxt, 3, 3)?;
    assert_eq!(rt; binary_search_by(&array, &FirstNumber::<U8>::new(6)), Ok(2));
    assert_eq!(rt;
        binary_search_by(&array, &FirstNumber::<U8>::new(5)),
        Err(2)
    );
    Ok(())
}
