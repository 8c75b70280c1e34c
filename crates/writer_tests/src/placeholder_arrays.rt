use buffer::WriteBuffer;
use context::WriteContext;
use refusals::Refusal;
use scalars::{U8, U16Be, U24Be};
use std::test::Fail;
use writer::{Run, Writer};

#[test]
fn items_of_a_run(rt: HostRuntime) -> Result<(), Fail> {
    let mut memory = [0xEE; 6];
    let mut w = Writer::new(WriteBuffer::new(&mut memory));
    let run = w.placeholder_array::<U16Be>(3)?;
    assert_eq!(rt; w.write_placeholder_item::<U16Be>(run, 2, 0x0506), Ok(()));
    assert_eq!(rt; w.write_placeholder_item::<U16Be>(run, 0, 0x0102), Ok(()));
    assert_eq!(rt;
        w.write_placeholder_item::<U16Be>(run, 3, 1),
        Err(Refusal::BadIndex)
    );
    assert_eq!(rt;
        w.write_placeholder_item::<U16Be>(run, 0, 1),
        Err(Refusal::NoPlace)
    );
    assert_eq!(rt; w.finish(), Err(Refusal::Unfilled));
    assert_eq!(rt; w.write_placeholder_item::<U16Be>(run, 1, 0x0304), Ok(()));
    assert_eq!(rt; w.finish(), Ok(6));
    let back: &[u8] = w.into_inner().into_inner();
    assert_eq!(rt; back, [1, 2, 3, 4, 5, 6].as_slice());
    Ok(())
}

#[test]
fn made_up_runs_are_judged(rt: HostRuntime) -> Result<(), Fail> {
    let mut memory = [0xEE; 3];
    let mut w = Writer::new(WriteBuffer::new(&mut memory));
    let run = w.placeholder_array::<U8>(2)?;
    assert_eq!(rt; w.abandon_item(run, 2), Err(Refusal::BadIndex));
    let far = Run {
        first: usize::MAX,
        count: usize::MAX,
    };
    assert_eq!(rt;
        w.write_placeholder_item::<U8>(far, 1, 1),
        Err(Refusal::NoPlace)
    );
    assert_eq!(rt; w.abandon_item(far, usize::MAX), Err(Refusal::BadIndex));
    let past = Run {
        first: 255,
        count: 2,
    };
    assert_eq!(rt;
        w.write_placeholder_item::<U8>(past, 0, 1),
        Err(Refusal::NoPlace)
    );
    assert_eq!(rt;
        w.write_placeholder_item::<U8>(past, 1, 1),
        Err(Refusal::NoPlace)
    );
    let neighbour = Run { first: 1, count: 1 };
    assert_eq!(rt; w.write_placeholder_item::<U8>(neighbour, 0, 5), Ok(()));
    assert_eq!(rt; w.write_placeholder_item::<U8>(run, 0, 4), Ok(()));
    assert_eq!(rt; w.finish(), Ok(2));
    let back: &[u8] = w.into_inner().into_inner();
    assert_eq!(rt; back, [4, 5, 0xEE].as_slice());
    Ok(())
}

#[test]
fn a_refused_fill_spoils_its_place(rt: HostRuntime) -> Result<(), Fail> {
    let mut memory = [0xEE; 4];
    let mut w = Writer::new(WriteBuffer::new(&mut memory));
    let run = w.placeholder_array::<U24Be>(1)?;
    assert_eq!(rt;
        w.write_placeholder_item::<U24Be>(run, 0, 0x1000000),
        Err(Refusal::BadValue)
    );
    assert_eq!(rt;
        w.write_placeholder_item::<U24Be>(run, 0, 1),
        Err(Refusal::NoPlace)
    );
    assert_eq!(rt; w.abandon_item(run, 0), Err(Refusal::NoPlace));
    assert_eq!(rt; w.finish(), Err(Refusal::Unfilled));
    let back: &[u8] = w.into_inner().into_inner();
    assert_eq!(rt; back, [0, 0, 0, 0xEE].as_slice());
    Ok(())
}
