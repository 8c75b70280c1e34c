ghost use Rattle.std.specs.Prelude.{◌≡◌, true};

use counter::WriteCounter;
use scalars::U16Be;
use std::test::Fail;
use writer::Writer;

// A run of no places is taken whatever was done with the writer before: no more than 256 places are ever taken.
fn takes_none(w: &mut Writer<WriteCounter>) -> bool
    ensures { result ≡ true }
{
    w.placeholder_array::<U16Be>(0).is_ok()
}

#[test]
fn a_run_of_none_is_taken_of_a_full_register(rt: HostRuntime) -> Result<(), Fail> {
    let mut w = Writer::new(WriteCounter::new());
    let run = w.placeholder_array::<U16Be>(256);
    assert_eq!(rt; run.is_ok(), true);
    assert_eq!(rt; takes_none(&mut w), true);
    Ok(())
}
