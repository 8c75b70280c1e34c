use buffer::WriteBuffer;
use context::{WriteContext, write, write_scope, write_value_at};
use counter::WriteCounter;
use read::ReadScope;
use refusals::Refusal;
use scalars::{I16Be, U8, U24Be, U32Be};

#[test]
fn values_follow_one_another(rt: HostRuntime) {
    let mut memory = [0xEE; 8];
    let mut buffer = WriteBuffer::new(&mut memory);
    assert_eq!(rt;
        write::<(U24Be, I16Be), WriteBuffer>(&mut buffer, (0x010203, -2)),
        Ok(())
    );
    assert_eq!(rt; write::<U8, WriteBuffer>(&mut buffer, 7), Ok(()));
    assert_eq!(rt;
        write::<U32Be, WriteBuffer>(&mut buffer, 1),
        Err(Refusal::NoSpace)
    );
    assert_eq!(rt; write_scope(&mut buffer, ReadScope::new(&[8, 9])), Ok(()));
    assert_eq!(rt; write_scope(&mut buffer, ReadScope::new(&[])), Ok(()));
    assert_eq!(rt;
        write_scope(&mut buffer, ReadScope::new(&[1])),
        Err(Refusal::NoSpace)
    );
    assert_eq!(rt; buffer.bytes(), [1, 2, 3, 0xFF, 0xFE, 7, 8, 9].as_slice());
}

#[test]
fn a_value_that_does_not_fit_is_refused_first(rt: HostRuntime) {
    let mut memory = [0xEE; 2];
    let mut buffer = WriteBuffer::new(&mut memory);
    assert_eq!(rt;
        write::<U24Be, WriteBuffer>(&mut buffer, 0x1000000),
        Err(Refusal::BadValue)
    );
    assert_eq!(rt;
        write::<U24Be, WriteBuffer>(&mut buffer, 0xFFFFFF),
        Err(Refusal::NoSpace)
    );
    assert_eq!(rt;
        write::<(U8, U24Be), WriteBuffer>(&mut buffer, (1, 0x1000000)),
        Err(Refusal::BadValue)
    );
    assert_eq!(rt; buffer.len(), 0);
    let back: &[u8] = buffer.into_inner();
    assert_eq!(rt; back, [0xEE, 0xEE].as_slice());
}

#[test]
fn values_laid_over_others(rt: HostRuntime) {
    let mut memory = [0xEE; 6];
    let mut buffer = WriteBuffer::new(&mut memory);
    assert_eq!(rt; buffer.write_zeros(5), Ok(()));
    assert_eq!(rt;
        write_value_at::<U24Be, WriteBuffer>(&mut buffer, 1, 0x010203),
        Ok(())
    );
    assert_eq!(rt;
        write_value_at::<U24Be, WriteBuffer>(&mut buffer, 2, 0x040506),
        Ok(())
    );
    assert_eq!(rt;
        write_value_at::<U24Be, WriteBuffer>(&mut buffer, 3, 0x1000000),
        Err(Refusal::BadValue)
    );
    assert_eq!(rt;
        write_value_at::<U24Be, WriteBuffer>(&mut buffer, 3, 0),
        Err(Refusal::PlaceholderMismatch)
    );
    let back: &[u8] = buffer.into_inner();
    assert_eq!(rt; back, [0, 1, 4, 5, 6, 0xEE].as_slice());
}

#[test]
fn a_counter_takes_values_too(rt: HostRuntime) {
    let mut counter = WriteCounter::new();
    assert_eq!(rt; write::<U24Be, WriteCounter>(&mut counter, 1), Ok(()));
    assert_eq!(rt;
        write::<U24Be, WriteCounter>(&mut counter, 0x1000000),
        Err(Refusal::BadValue)
    );
    assert_eq!(rt; write_scope(&mut counter, ReadScope::new(&[1, 2])), Ok(()));
    assert_eq!(rt; counter.bytes_written(), 5);
}
