use read::ReadScope;
use refusals::Refusal;
use scalars::{I16Be, U24Be};
use std::test::Fail;

#[test]
fn checks_refuse_by_their_own_word(rt: HostRuntime) {
    let ctxt = ReadScope::new(&[0, 2]).ctxt();
    assert_eq!(rt; ctxt.check(true), Ok(()));
    assert_eq!(rt; ctxt.check(false), Err(Refusal::BadValue));
    assert_eq!(rt; ctxt.check_index(true), Ok(()));
    assert_eq!(rt; ctxt.check_index(false), Err(Refusal::BadIndex));
    assert_eq!(rt; ctxt.check_version(true), Ok(()));
    assert_eq!(rt; ctxt.check_version(false), Err(Refusal::BadVersion));
}

#[test]
fn a_refused_read_does_not_move(rt: HostRuntime) {
    let mut ctxt = ReadScope::new(&[1, 2, 3]).ctxt();
    assert_eq!(rt; ctxt.read_u32be(), Err(Refusal::BadEof));
    assert_eq!(rt; ctxt.read_slice(4), Err(Refusal::BadEof));
    assert!(rt; ctxt.read_scope(usize::MAX).is_err());
    assert_eq!(rt; ctxt.read::<(U24Be, I16Be)>(), Err(Refusal::BadEof));
    assert_eq!(rt; ctxt.read_slice(3), Ok([1, 2, 3].as_slice()));
    assert_eq!(rt; ctxt.bytes_available(), false);
    assert_eq!(rt; ctxt.read_u8(), Err(Refusal::BadEof));
    assert_eq!(rt; ctxt.read_slice(0), Ok([].as_slice()));
}

#[test]
fn reads_follow_one_another(rt: HostRuntime) -> Result<(), Fail> {
    let mut ctxt = ReadScope::new(&[0, 1, 2, 0xFF, 0xFE, 7, 8, 9]).ctxt();
    assert_eq!(rt; ctxt.read::<(U24Be, I16Be)>(), Ok((0x000102, -2)));
    assert_eq!(rt; ctxt.bytes_available(), true);
    assert_eq!(rt; ctxt.scope().data(), [7, 8, 9].as_slice());
    assert_eq!(rt; ctxt.read_scope(2)?.data(), [7, 8].as_slice());
    assert_eq!(rt; ctxt.scope().data(), [9].as_slice());
    assert_eq!(rt; ctxt.read_u8(), Ok(9));
    assert_eq!(rt; ctxt.scope().data().len(), 0);
    Ok(())
}

#[test]
fn a_scope_within_a_scope_keeps_its_base(rt: HostRuntime) -> Result<(), Fail> {
    let mut ctxt = ReadScope::new(&[1, 2, 3]).ctxt();
    assert_eq!(rt; ctxt.read_u8(), Ok(1));
    let inner = ctxt.read_scope(1)?;
    assert_eq!(rt; inner.offset(usize::MAX - 1)?.data().len(), 0);
    assert!(rt; matches!(inner.offset(usize::MAX), Err(Refusal::Overflow)));
    let rest = ctxt.scope();
    assert_eq!(rt; rest.offset(usize::MAX - 2)?.data().len(), 0);
    assert!(rt; matches!(rest.offset(usize::MAX - 1), Err(Refusal::Overflow)));
    Ok(())
}
