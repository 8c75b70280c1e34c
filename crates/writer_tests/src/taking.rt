use buffer::WriteBuffer;
use context::WriteContext;
use counter::WriteCounter;
use read::ReadScope;
use refusals::Refusal;
use scalars::{U8, U16Be, U64Be};
use std::test::Fail;
use writer::Writer;

#[test]
fn empty_places_at_one_offset(rt: HostRuntime) -> Result<(), Fail> {
    let mut memory = [0xEE; 1];
    let mut w = Writer::new(WriteBuffer::new(&mut memory));
    let p = w.reserve(0)?;
    let q = w.reserve(0);
    let filled = w.write_placeholder_dep(p, ReadScope::new(&[]));
    // The token was taken before the fill, so it is asked for here.
    let Ok(q) = q else {
        return Err(Fail::new("no second place"));
    };
    let early = w.finish();
    let given_up = w.abandon(q);
    assert_eq!(rt; filled, Ok(()));
    assert_eq!(rt; early, Err(Refusal::Unfilled));
    assert_eq!(rt; given_up, Ok(()));
    assert_eq!(rt; w.finish(), Err(Refusal::Unfilled));
    Ok(())
}

#[test]
fn nothing_is_still_written_to_full_memory(rt: HostRuntime) -> Result<(), Fail> {
    let mut memory = [0xEE; 2];
    let mut w = Writer::new(WriteBuffer::new(&mut memory));
    assert_eq!(rt; w.write::<U16Be>(1), Ok(()));
    assert_eq!(rt; w.write_bytes(&[]), Ok(()));
    assert_eq!(rt; w.write_zeros(0), Ok(()));
    let run = w.placeholder_array::<U16Be>(0)?;
    assert_eq!(rt; run.first, 0);
    assert_eq!(rt; run.count, 0);
    assert_eq!(rt; w.write_bytes(&[1]), Err(Refusal::NoSpace));
    assert_eq!(rt; w.write::<U8>(1), Err(Refusal::NoSpace));
    assert!(rt; w.placeholder_array::<U8>(1).is_err());
    assert_eq!(rt; w.finish(), Ok(2));
    Ok(())
}

#[test]
fn a_writer_goes_on_behind_what_was_written(rt: HostRuntime) -> Result<(), Fail> {
    let mut memory = [0xEE; 4];
    let mut buffer = WriteBuffer::new(&mut memory);
    assert_eq!(rt; buffer.write_bytes(&[9]), Ok(()));
    let mut w = Writer::new(buffer);
    let run = w.placeholder_array::<U8>(2)?;
    assert_eq!(rt; w.write_placeholder_item::<U8>(run, 1, 7), Ok(()));
    assert_eq!(rt; w.write_placeholder_item::<U8>(run, 0, 6), Ok(()));
    assert_eq!(rt; w.finish(), Ok(3));
    let back: &[u8] = w.into_inner().into_inner();
    assert_eq!(rt; back, [9, 6, 7, 0xEE].as_slice());
    Ok(())
}

#[test]
fn a_counter_counts_places_too(rt: HostRuntime) -> Result<(), Fail> {
    let mut w = Writer::new(WriteCounter::new());
    let run = w.placeholder_array::<U64Be>(256)?;
    assert_eq!(rt; run.first, 0);
    assert_eq!(rt; w.write_placeholder_item::<U64Be>(run, 255, 1), Ok(()));
    assert_eq!(rt; w.write::<U8>(1), Ok(()));
    assert_eq!(rt; w.finish(), Err(Refusal::Unfilled));
    assert_eq!(rt; w.into_inner().bytes_written(), 2049);
    Ok(())
}

#[test]
fn the_257th_place_is_refused_and_a_run_of_none_is_not(rt: HostRuntime) -> Result<(), Fail> {
    let mut w = Writer::new(WriteCounter::new());
    let run = w.placeholder_array::<U8>(256)?;
    assert_eq!(rt; run.count, 256);
    assert!(rt; w.placeholder_array::<U8>(1).is_err());
    let none = w.placeholder_array::<U8>(0)?;
    assert_eq!(rt; none.first, 256);
    assert_eq!(rt; w.into_inner().bytes_written(), 256);
    Ok(())
}

#[test]
fn too_many_places_are_refused_in_order(rt: HostRuntime) {
    let mut memory = [0xEE; 1];
    let mut w = Writer::new(WriteBuffer::new(&mut memory));
    let wraps = w.placeholder_array::<U16Be>(usize::MAX);
    let full = w.placeholder_array::<U8>(usize::MAX);
    let short = w.placeholder_array::<U8>(2);
    assert_eq!(rt; wraps.err(), Some(Refusal::Overflow));
    assert_eq!(rt; full.err(), Some(Refusal::RegisterFull));
    assert_eq!(rt; short.err(), Some(Refusal::NoSpace));
    assert_eq!(rt; w.finish(), Ok(0));
}
