#![tactic(auto)]

ghost use Rattle.std.specs.Prelude.{◌≡◌, ℕ, ◌+◌, ◌-◌, ◌≤◌, []};
ghost use Rattle.refusals.specs.Answers.{told, judged, after};
ghost use Rattle.opentype.specs.Alignment.{largest};
ghost use Rattle.context.specs.Contexts.{space_dues};
ghost use Rattle.counter.specs.Counters.{counter_means};

use context::{WriteContext, lies_before};
use refusals::Refusal;
use std::marker::Model;

// A context that counts what is written and keeps none of it.
#[derive(Drop)]
pub struct WriteCounter {
    count: usize,
}

// Contracts see a counter as its count.
impl Model for WriteCounter {
    ghost Value = { ℕ };

    ghost view = { λ c. c.count };
}

impl WriteCounter {
    // A counter of nothing.
    pub fn new() -> WriteCounter
        ensures value { result ≡ 0 }
        ensures nothing { counter_means.stands result [] }
    {
        WriteCounter { count: 0 }
    }

    // Counts `size` bytes more, if there is space for them.
    fn add(&mut self, size: usize) -> Result<(), Refusal>
        ensures answer { told (λ t. t) result ≡ judged (space_dues (largest - self.old) size) tt }
        ensures after { self.new ≡ after (space_dues (largest - self.old) size) self.old (self.old + size) }
    {
        if size > self.space() {
            return Err(Refusal::NoSpace);
        }
        self.count += size;
        Ok(())
    }
}

impl WriteContext for WriteCounter {
    ghost means = { counter_means };

    fn write_bytes(&mut self, data: &[u8]) -> Result<(), Refusal> {
        self.add(data.len())
    }

    fn write_zeros(&mut self, count: usize) -> Result<(), Refusal> {
        self.add(count)
    }

    fn write_at(&mut self, offset: usize, data: &[u8]) -> Result<(), Refusal> {
        if !lies_before(self.count, offset, data.len()) {
            return Err(Refusal::PlaceholderMismatch);
        }
        Ok(())
    }

    fn bytes_written(&self) -> usize {
        self.count
    }

    fn space(&self) -> usize {
        usize::MAX - self.count
    }
}
