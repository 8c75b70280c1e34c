use context::WriteContext;
use counter::WriteCounter;
use refusals::Refusal;

#[test]
fn counts_bytes_and_zeros(rt: HostRuntime) {
    let mut counter = WriteCounter::new();
    assert_eq!(rt; counter.bytes_written(), 0);
    assert_eq!(rt; counter.space(), usize::MAX);
    assert_eq!(rt; counter.write_bytes(&[1, 2, 3]), Ok(()));
    assert_eq!(rt; counter.write_zeros(4), Ok(()));
    assert_eq!(rt; counter.write_bytes(&[]), Ok(()));
    assert_eq!(rt; counter.bytes_written(), 7);
    assert_eq!(rt; counter.space(), usize::MAX - 7);
}

#[test]
fn counts_up_to_the_largest_usize(rt: HostRuntime) {
    let mut counter = WriteCounter::new();
    assert_eq!(rt; counter.write_zeros(usize::MAX - 1), Ok(()));
    assert_eq!(rt; counter.write_bytes(&[1, 2]), Err(Refusal::NoSpace));
    assert_eq!(rt; counter.write_zeros(2), Err(Refusal::NoSpace));
    assert_eq!(rt; counter.write_bytes(&[1]), Ok(()));
    assert_eq!(rt; counter.space(), 0);
    assert_eq!(rt; counter.write_zeros(1), Err(Refusal::NoSpace));
    assert_eq!(rt; counter.write_at(usize::MAX, &[]), Ok(()));
    assert_eq!(rt;
        counter.write_at(usize::MAX, &[1]),
        Err(Refusal::PlaceholderMismatch)
    );
    assert_eq!(rt; counter.bytes_written(), usize::MAX);
}

#[test]
fn laid_within_the_count(rt: HostRuntime) {
    let mut counter = WriteCounter::new();
    assert_eq!(rt; counter.write_at(0, &[]), Ok(()));
    assert_eq!(rt;
        counter.write_at(0, &[1]),
        Err(Refusal::PlaceholderMismatch)
    );
    assert_eq!(rt; counter.write_zeros(2), Ok(()));
    assert_eq!(rt; counter.write_at(1, &[1]), Ok(()));
    assert_eq!(rt;
        counter.write_at(1, &[1, 2]),
        Err(Refusal::PlaceholderMismatch)
    );
    assert_eq!(rt; counter.write_at(3, &[]), Err(Refusal::PlaceholderMismatch));
    assert_eq!(rt; counter.bytes_written(), 2);
}
