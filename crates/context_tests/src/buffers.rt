use buffer::WriteBuffer;
use context::WriteContext;
use refusals::Refusal;

#[test]
fn memory_exactly_full(rt: HostRuntime) {
    let mut memory = [0xEE; 5];
    let mut buffer = WriteBuffer::new(&mut memory);
    assert_eq!(rt; buffer.len(), 0);
    assert_eq!(rt; buffer.space(), 5);
    assert_eq!(rt; buffer.write_bytes(&[1, 2, 3]), Ok(()));
    assert_eq!(rt; buffer.write_zeros(2), Ok(()));
    assert_eq!(rt; buffer.space(), 0);
    assert_eq!(rt; buffer.bytes(), [1, 2, 3, 0, 0].as_slice());
    assert_eq!(rt; buffer.write_bytes(&[]), Ok(()));
    assert_eq!(rt; buffer.write_zeros(0), Ok(()));
    assert_eq!(rt; buffer.write_bytes(&[4]), Err(Refusal::NoSpace));
    assert_eq!(rt; buffer.write_zeros(1), Err(Refusal::NoSpace));
    assert_eq!(rt; buffer.bytes_written(), 5);
}

#[test]
fn one_byte_short(rt: HostRuntime) {
    let mut memory = [0xEE; 3];
    let mut buffer = WriteBuffer::new(&mut memory);
    assert_eq!(rt; buffer.write_bytes(&[1, 2, 3, 4]), Err(Refusal::NoSpace));
    assert_eq!(rt; buffer.write_zeros(4), Err(Refusal::NoSpace));
    assert_eq!(rt; buffer.write_zeros(usize::MAX), Err(Refusal::NoSpace));
    assert_eq!(rt; buffer.len(), 0);
    let back: &[u8] = buffer.into_inner();
    assert_eq!(rt; back, [0xEE, 0xEE, 0xEE].as_slice());
}

#[test]
fn empty_memory(rt: HostRuntime) {
    let mut memory = [];
    let mut buffer = WriteBuffer::new(&mut memory);
    assert_eq!(rt; buffer.space(), 0);
    assert_eq!(rt; buffer.write_bytes(&[]), Ok(()));
    assert_eq!(rt; buffer.write_at(0, &[]), Ok(()));
    assert_eq!(rt; buffer.write_bytes(&[1]), Err(Refusal::NoSpace));
    assert_eq!(rt; buffer.write_at(0, &[1]), Err(Refusal::PlaceholderMismatch));
    assert_eq!(rt; buffer.write_at(1, &[]), Err(Refusal::PlaceholderMismatch));
    assert_eq!(rt; buffer.bytes().len(), 0);
}

#[test]
fn laid_within_the_written_bytes(rt: HostRuntime) {
    let mut memory = [0xEE; 6];
    let mut buffer = WriteBuffer::new(&mut memory);
    assert_eq!(rt; buffer.write_bytes(&[1, 2, 3, 4]), Ok(()));
    assert_eq!(rt; buffer.write_at(0, &[9]), Ok(()));
    assert_eq!(rt; buffer.write_at(2, &[7, 8]), Ok(()));
    assert_eq!(rt; buffer.write_at(4, &[]), Ok(()));
    assert_eq!(rt;
        buffer.write_at(3, &[5, 6]),
        Err(Refusal::PlaceholderMismatch)
    );
    assert_eq!(rt; buffer.write_at(5, &[]), Err(Refusal::PlaceholderMismatch));
    assert_eq!(rt;
        buffer.write_at(usize::MAX, &[5]),
        Err(Refusal::PlaceholderMismatch)
    );
    assert_eq!(rt;
        buffer.write_at(usize::MAX, &[]),
        Err(Refusal::PlaceholderMismatch)
    );
    assert_eq!(rt; buffer.len(), 4);
    assert_eq!(rt; buffer.space(), 2);
    let back: &[u8] = buffer.into_inner();
    assert_eq!(rt; back, [9, 2, 7, 8, 0xEE, 0xEE].as_slice());
}

#[test]
fn cleared_memory_stays(rt: HostRuntime) {
    let mut memory = [0xEE; 3];
    let mut buffer = WriteBuffer::new(&mut memory);
    assert_eq!(rt; buffer.write_bytes(&[1, 2]), Ok(()));
    buffer.clear();
    assert_eq!(rt; buffer.len(), 0);
    assert_eq!(rt; buffer.space(), 3);
    assert_eq!(rt; buffer.write_at(0, &[5]), Err(Refusal::PlaceholderMismatch));
    assert_eq!(rt; buffer.write_bytes(&[4]), Ok(()));
    assert_eq!(rt; buffer.bytes(), [4].as_slice());
    let back: &[u8] = buffer.into_inner();
    assert_eq!(rt; back, [4, 2, 0xEE].as_slice());
}
