use read::ReadScope;
use refusals::Refusal;
use scalars::U16Be;
use std::test::Fail;

const FOUR: [u8; 4] = [1, 2, 3, 4];

// The bytes of the part, or why there is none.
fn part(offset: usize, length: usize) -> Result<&'static [u8], Refusal> {
    let scope = ReadScope::new(&FOUR).offset_length(offset, length)?;
    Ok(scope.data())
}

fn rest(offset: usize) -> Result<&'static [u8], Refusal> {
    let scope = ReadScope::new(&FOUR).offset(offset)?;
    Ok(scope.data())
}

#[test]
fn offset_length_at_its_limits(rt: HostRuntime) {
    assert_eq!(rt; part(0, 4), Ok([1, 2, 3, 4].as_slice()));
    assert_eq!(rt; part(3, 1), Ok([4].as_slice()));
    assert_eq!(rt; part(4, 0), Ok([].as_slice()));
    assert_eq!(rt; part(9, 0), Ok([].as_slice()));
    assert_eq!(rt; part(usize::MAX, 0), Ok([].as_slice()));
    assert_eq!(rt; part(4, 1), Err(Refusal::BadOffset));
    assert_eq!(rt; part(usize::MAX, 1), Err(Refusal::BadOffset));
    assert_eq!(rt; part(3, 2), Err(Refusal::BadEof));
    assert_eq!(rt; part(0, usize::MAX), Err(Refusal::BadEof));
}

#[test]
fn offset_is_empty_past_the_end(rt: HostRuntime) {
    assert_eq!(rt; rest(0), Ok([1, 2, 3, 4].as_slice()));
    assert_eq!(rt; rest(3), Ok([4].as_slice()));
    assert_eq!(rt; rest(4), Ok([].as_slice()));
    assert_eq!(rt; rest(usize::MAX), Ok([].as_slice()));
}

#[test]
fn bases_add_up_and_do_not_wrap(rt: HostRuntime) -> Result<(), Fail> {
    let far = ReadScope::new(&FOUR).offset(usize::MAX)?;
    assert_eq!(rt; far.offset(0)?.data().len(), 0);
    assert!(rt; matches!(far.offset(1), Err(Refusal::Overflow)));
    assert!(rt; matches!(far.offset_length(1, 0), Err(Refusal::Overflow)));
    assert!(rt; matches!(far.offset_length(1, 1), Err(Refusal::BadOffset)));
    let near = ReadScope::new(&FOUR).offset(1)?;
    assert!(rt; matches!(near.offset(usize::MAX), Err(Refusal::Overflow)));
    assert_eq!(rt; near.offset(usize::MAX - 1)?.data().len(), 0);
    Ok(())
}

#[test]
fn a_scope_reads_at_its_start(rt: HostRuntime) -> Result<(), Fail> {
    assert_eq!(rt; ReadScope::new(&FOUR).read::<U16Be>(), Ok(0x0102));
    assert_eq!(rt;
        ReadScope::new(&FOUR).offset(2)?.read::<U16Be>(),
        Ok(0x0304)
    );
    assert_eq!(rt;
        ReadScope::new(&FOUR).offset(3)?.read::<U16Be>(),
        Err(Refusal::BadEof)
    );
    assert_eq!(rt; ReadScope::new(&[]).read::<U16Be>(), Err(Refusal::BadEof));
    Ok(())
}
