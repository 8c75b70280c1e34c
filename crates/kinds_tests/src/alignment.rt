use opentype::{long_align, safe_from, word_align};
use refusals::Refusal;

#[test]
fn long_align_rounds_up_to_four(rt: HostRuntime) {
    assert_eq!(rt; long_align(123), Ok(124));
    assert_eq!(rt; long_align(0), Ok(0));
    assert_eq!(rt; long_align(1), Ok(4));
    assert_eq!(rt; long_align(4), Ok(4));
    assert_eq!(rt; long_align(usize::MAX - 3), Ok(usize::MAX - 3));
    assert_eq!(rt; long_align(usize::MAX - 2), Err(Refusal::Overflow));
    assert_eq!(rt; long_align(usize::MAX), Err(Refusal::Overflow));
}

#[test]
fn word_align_rounds_up_to_two(rt: HostRuntime) {
    assert_eq!(rt; word_align(123), Ok(124));
    assert_eq!(rt; word_align(0), Ok(0));
    assert_eq!(rt; word_align(usize::MAX - 1), Ok(usize::MAX - 1));
    assert_eq!(rt; word_align(usize::MAX), Err(Refusal::Overflow));
}

#[test]
fn safe_from_keeps_the_value(rt: HostRuntime) {
    assert_eq!(rt; safe_from(0), 0);
    assert_eq!(rt; safe_from(u32::MAX), 4_294_967_295);
}
