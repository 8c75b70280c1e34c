use arrays::{ReadArray, read_array};
use read::ReadScope;
use refusals::Refusal;
use scalars::U8;
use std::test::Fail;

fn bytes(data: &[u8]) -> Result<ReadArray<'_, U8>, Refusal> {
    let mut ctxt = ReadScope::new(data).ctxt();
    read_array(&mut ctxt, data.len())
}

#[test]
fn both_ends_meet_at_an_odd_length(rt: HostRuntime) -> Result<(), Fail> {
    let mut cursor = bytes(&[1, 2, 3])?.iter();
    assert_eq!(rt; cursor.len(), 3);
    assert_eq!(rt; cursor.next(), Some(1));
    assert_eq!(rt; cursor.next_back(), Some(3));
    assert_eq!(rt; cursor.len(), 1);
    assert_eq!(rt; cursor.next_back(), Some(2));
    assert_eq!(rt; cursor.len(), 0);
    assert_eq!(rt; cursor.next(), None);
    assert_eq!(rt; cursor.next_back(), None);
    Ok(())
}

#[test]
fn both_ends_meet_at_an_even_length(rt: HostRuntime) -> Result<(), Fail> {
    let mut cursor = bytes(&[1, 2])?.iter();
    assert_eq!(rt; cursor.next_back(), Some(2));
    assert_eq!(rt; cursor.next(), Some(1));
    assert_eq!(rt; cursor.next(), None);
    assert_eq!(rt; cursor.next_back(), None);
    Ok(())
}

#[test]
fn nothing_comes_of_no_items(rt: HostRuntime) -> Result<(), Fail> {
    let mut cursor = bytes(&[])?.iter();
    assert_eq!(rt; cursor.next(), None);
    assert_eq!(rt; cursor.next_back(), None);
    assert_eq!(rt; cursor.len(), 0);
    Ok(())
}

#[test]
fn answers_come_forward(rt: HostRuntime) -> Result<(), Fail> {
    let mut cursor = bytes(&[7, 8])?.iter_res();
    assert_eq!(rt; cursor.len(), 2);
    assert_eq!(rt; cursor.next(), Some(Ok(7)));
    assert_eq!(rt; cursor.next(), Some(Ok(8)));
    assert_eq!(rt; cursor.len(), 0);
    assert_eq!(rt; cursor.next(), None);
    Ok(())
}

#[test]
fn cursors_are_iterators(rt: HostRuntime) -> Result<(), Fail> {
    let array = bytes(&[3, 5, 9])?;
    let mut last = None;
    for v in &array {
        last = Some(v);
    }
    assert_eq!(rt; last, Some(9));
    assert_eq!(rt; array.iter().nth(1), Some(5));
    assert_eq!(rt; array.iter().rev().nth(2), Some(3));
    assert_eq!(rt; array.iter().size_hint(), (3, Some(3)));
    assert_eq!(rt; array.iter_res().size_hint(), (3, Some(3)));
    assert_eq!(rt; array.iter_res().last(), Some(Ok(9)));
    Ok(())
}
