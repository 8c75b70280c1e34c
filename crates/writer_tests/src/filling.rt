use buffer::WriteBuffer;
use context::WriteContext;
use read::ReadScope;
use refusals::Refusal;
use scalars::{I16Be, U8, U16Be, U24Be, U32Be};
use std::process::Abort;
use std::test::Fail;
use writer::Writer;

#[test]
fn a_place_filled_late(rt: HostRuntime) -> Result<(), Fail> {
    let mut memory = [0xEE; 8];
    let mut w = Writer::new(WriteBuffer::new(&mut memory));
    let p = w.placeholder::<U16Be>()?;
    let wrote = w.write::<U32Be>(7);
    let early = w.finish();
    let filled = w.write_placeholder::<U16Be>(p, 0x0A0B);
    assert_eq!(rt; wrote, Ok(()));
    assert_eq!(rt; early, Err(Refusal::Unfilled));
    assert_eq!(rt; filled, Ok(()));
    assert_eq!(rt; w.finish(), Ok(6));
    let back: &[u8] = w.into_inner().into_inner();
    assert_eq!(rt; back, [0x0A, 0x0B, 0, 0, 0, 7, 0xEE, 0xEE].as_slice());
    Ok(())
}

#[test]
fn an_empty_place_blocks_until_it_is_filled(rt: HostRuntime) -> Result<(), Fail> {
    let mut memory = [];
    let mut w = Writer::new(WriteBuffer::new(&mut memory));
    let p = w.reserve(0)?;
    let early = w.finish();
    let filled = w.write_placeholder_dep(p, ReadScope::new(&[]));
    assert_eq!(rt; early, Err(Refusal::Unfilled));
    assert_eq!(rt; filled, Ok(()));
    assert_eq!(rt; w.finish(), Ok(0));
    Ok(())
}

#[test]
fn the_kind_is_chosen_at_the_fill(rt: HostRuntime) -> Result<(), Fail> {
    let mut memory = [0xEE; 4];
    let mut w = Writer::new(WriteBuffer::new(&mut memory));
    let p = w.placeholder::<U16Be>()?;
    let signed = w.write_placeholder::<I16Be>(p, -2);
    assert_eq!(rt; signed, Ok(()));
    let p = w.reserve(2)?;
    let reserved = w.write_placeholder::<U16Be>(p, 0x0102);
    assert_eq!(rt; reserved, Ok(()));
    assert_eq!(rt; w.finish(), Ok(4));
    let back: &[u8] = w.into_inner().into_inner();
    assert_eq!(rt; back, [0xFF, 0xFE, 1, 2].as_slice());
    Ok(())
}

#[test]
fn a_shorter_scope_keeps_its_zeros(rt: HostRuntime) -> Result<(), Fail> {
    let mut memory = [0xEE; 8];
    let mut w = Writer::new(WriteBuffer::new(&mut memory));
    let p = w.reserve(4)?;
    let three = w.write_placeholder_dep(p, ReadScope::new(&[1, 2, 3]));
    assert_eq!(rt; three, Ok(()));
    let p = w.placeholder::<U16Be>()?;
    let one = w.write_placeholder_dep(p, ReadScope::new(&[9]));
    assert_eq!(rt; one, Ok(()));
    assert_eq!(rt; w.finish(), Ok(6));
    let back: &[u8] = w.into_inner().into_inner();
    assert_eq!(rt; back, [1, 2, 3, 0, 9, 0, 0xEE, 0xEE].as_slice());
    Ok(())
}

#[test]
fn a_scope_too_long_spoils_its_place(rt: HostRuntime) -> Result<(), Fail> {
    let mut memory = [0xEE; 4];
    let mut w = Writer::new(WriteBuffer::new(&mut memory));
    let p = w.reserve(4)?;
    let five = w.write_placeholder_dep(p, ReadScope::new(&[1, 2, 3, 4, 5]));
    assert_eq!(rt; five, Err(Refusal::PlaceholderMismatch));
    assert_eq!(rt; w.finish(), Err(Refusal::Unfilled));
    let back: &[u8] = w.into_inner().into_inner();
    assert_eq!(rt; back, [0, 0, 0, 0].as_slice());
    Ok(())
}

#[test]
fn a_kind_of_another_size_finds_no_place(rt: HostRuntime) -> Result<(), Fail> {
    let mut memory = [0xEE; 4];
    let mut w = Writer::new(WriteBuffer::new(&mut memory));
    let p = w.placeholder::<U16Be>()?;
    let wide = w.write_placeholder::<U24Be>(p, 0x1000000);
    assert_eq!(rt; wide, Err(Refusal::NoPlace));
    assert_eq!(rt;
        w.write_placeholder_item::<U16Be>(writer::Run { first: 0, count: 1 }, 0, 5),
        Ok(())
    );
    assert_eq!(rt; w.finish(), Ok(2));
    Ok(())
}

#[test]
fn a_token_of_another_writer_is_judged_like_any(rt: HostRuntime) -> Result<(), Fail> {
    let mut here = [0xEE; 4];
    let mut there = [0xEE; 4];
    let mut w = Writer::new(WriteBuffer::new(&mut here));
    let mut other = Writer::new(WriteBuffer::new(&mut there));
    let equal = other.placeholder::<U16Be>()?;
    let unequal = other.placeholder::<U8>();
    let mine = w.reserve(2);
    let first = w.write_placeholder_dep(equal, ReadScope::new(&[1]));
    // A place that is held may not be let go, so no `?` will do.
    let Ok(unequal) = unequal else {
        return give_back(&rt, &mut w, mine);
    };
    let second = w.write_placeholder_dep(unequal, ReadScope::new(&[1]));
    give_back(&rt, &mut w, mine)?;
    assert_eq!(rt; first, Ok(()));
    assert_eq!(rt; second, Err(Refusal::NoPlace));
    assert_eq!(rt; w.finish(), Ok(2));
    Ok(())
}

// Spends a token that was taken, whatever becomes of it.
fn give_back(
    rt: &impl Abort,
    w: &mut Writer<WriteBuffer<'_>>,
    taken: Result<writer::Placeholder, Refusal>,
) -> Result<(), Fail> {
    assert_eq!(rt; w.abandon(taken?), Err(Refusal::NoPlace));
    Ok(())
}
