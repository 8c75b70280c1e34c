ghost use Rattle.std.specs.Prelude.{◌≡◌, length};
ghost use Rattle.refusals.specs.Answers.{after};
ghost use Rattle.context.specs.Contexts.{overlaid, space_dues};

use buffer::WriteBuffer;
use context::WriteContext;
use refusals::Refusal;

// What a lender learns of its memory, once a buffer over it is let go: nothing but what was written has changed.
fn stamp(memory: &mut [u8], data: &[u8]) -> Result<(), Refusal>
    ensures { memory.new ≡ after (space_dues (length memory.old) (length «data».now)) memory.old (overlaid memory.old 0 «data».now) }
{
    let mut buffer = WriteBuffer::new(memory);
    buffer.write_bytes(data)
}

#[test]
fn a_buffer_that_is_let_go_leaves_what_was_written(rt: HostRuntime) {
    let mut memory = [0xEE; 4];
    assert_eq!(rt; stamp(&mut memory, &[1, 2]), Ok(()));
    assert_eq!(rt; memory, [1, 2, 0xEE, 0xEE]);
    assert_eq!(rt; stamp(&mut memory, &[1, 2, 3, 4, 5]), Err(Refusal::NoSpace));
    assert_eq!(rt; memory, [1, 2, 0xEE, 0xEE]);
}
