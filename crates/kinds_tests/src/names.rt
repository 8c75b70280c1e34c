use refusals::Refusal;
use std::test::Fail;

const ALL: [Refusal; 11] = [
    Refusal::BadEof,
    Refusal::BadOffset,
    Refusal::BadIndex,
    Refusal::BadValue,
    Refusal::BadVersion,
    Refusal::PlaceholderMismatch,
    Refusal::Overflow,
    Refusal::NoSpace,
    Refusal::NoPlace,
    Refusal::RegisterFull,
    Refusal::Unfilled,
];

#[test]
fn numbers_count_from_one(rt: HostRuntime) {
    for (expected, refusal) in (1..=11).zip(ALL) {
        assert_eq!(rt; refusal.number(), expected);
    }
}

#[test]
fn words_are_the_names(rt: HostRuntime) {
    assert_eq!(rt; Refusal::BadEof.word(), "BadEof");
    assert_eq!(rt; Refusal::PlaceholderMismatch.word(), "PlaceholderMismatch");
    assert_eq!(rt; Refusal::RegisterFull.word(), "RegisterFull");
    assert_eq!(rt; Refusal::Unfilled.word(), "Unfilled");
}

#[test]
fn a_refusal_prints_as_its_word(rt: HostRuntime) -> Result<(), Fail> {
    let text = Refusal::NoSpace.to_string(rt.alloc())?;
    assert_eq!(rt; text.as_str(), "NoSpace");
    Ok(())
}

#[test]
fn a_refusal_unless_its_condition_holds(rt: HostRuntime) {
    assert_eq!(rt; Refusal::BadIndex.unless(true), Ok(()));
    assert_eq!(rt; Refusal::BadIndex.unless(false), Err(Refusal::BadIndex));
}
