#![tactic(auto)]

ghost use Rattle.std.specs.Prelude.{◌≡◌, ◌+◌, ◌≤◌, [], length, replicate, MatchResult};
ghost use Rattle.refusals.specs.Answers.{told, judged, after};
ghost use Rattle.context.specs.Contexts.{Grown, Overlaid, Unchanged, space_dues, overlay_dues};
ghost use Rattle.buffer.specs.Buffers.{buffer, over, end, room, front, appended, laid, cleared, buffer_means};

use context::{WriteContext, lies_before};
use refusals::Refusal;

// A context in the caller's memory: what is written stands at its front, and the rest is untouched. (Memory
// and count stand apart, since the device has no heap and the rest of the memory must stay known. It has no
// `Model`: behind one, a lender would not learn what a buffer that is let go leaves in its memory.)
#[derive(Drop)]
pub struct WriteBuffer<'a> {
    memory: &'a mut [u8],
    count: usize,
}

impl<'a> WriteBuffer<'a> {
    // A buffer of nothing, with all of `memory` as its space.
    pub fn new(memory: &'a mut [u8]) -> WriteBuffer<'a>
        ensures value { buffer result ≡ over memory.entry.ghost_name memory.old }
        ensures nothing { buffer_means.stands result [] }
    {
        WriteBuffer { memory, count: 0 }
    }

    // The bytes written.
    pub fn bytes(&self) -> &[u8]
        ensures value { result.now ≡ front (buffer self.now) }
    {
        let end = self.bytes_written();
        &self.memory[0..end]
    }

    // How many bytes were written.
    pub fn len(&self) -> usize
        ensures value { result ≡ end (buffer self.now) }
    {
        self.bytes().len()
    }

    // Nothing is written again; the memory stays as it is.
    pub fn clear(&mut self)
        ensures after { buffer self.new ≡ cleared (buffer self.old) }
    {
        self.count = 0;
    }

    // Gives the memory back, as it is.
    pub fn into_inner(self) -> &'a mut [u8]
        ensures same { result.ghost_name ≡ (buffer self.entry).memory }
        ensures value { result.now ≡ (buffer self.entry).holds }
    {
        let memory = self.memory;
        memory
    }

    // Data and zeros are laid and written by a function each, as the trait has a call for each: what is laid is
    // no parameter, since the contract of a closure would be longer than the second function.

    // Writes data behind the end, where there is room for it.
    fn append(&mut self, data: &[u8])
        requires space { length «data».now ≤ room (buffer self.old) }
        ensures memory { buffer self.new ≡ appended (buffer self.old) «data».now }
        ensures grown { Grown buffer_means self.old «data».now self.new }
    {
        let from = self.bytes_written();
        self.lay(from, data);
        self.count = from + data.len();
    }

    // Writes zeros behind the end, where there is room for them.
    fn append_zeros(&mut self, count: usize)
        requires space { count ≤ room (buffer self.old) }
        ensures memory { buffer self.new ≡ appended (buffer self.old) (replicate count 0) }
        ensures grown { Grown buffer_means self.old (replicate count 0) self.new }
    {
        let from = self.bytes_written();
        self.lay_zeros(from, count);
        self.count = from + count;
    }

    // Lays data over written bytes.
    fn overlay(&mut self, offset: usize, data: &[u8])
        requires within { offset + length «data».now ≤ end (buffer self.old) }
        ensures memory { buffer self.new ≡ laid (buffer self.old) offset «data».now }
        ensures overlaid { Overlaid buffer_means self.old offset «data».now self.new }
    {
        self.lay(offset, data);
    }

    // Lays data over the memory.
    fn lay(&mut self, from: usize, data: &[u8])
        requires within { from + length «data».now ≤ length (buffer self.old).holds }
        ensures after { buffer self.new ≡ laid (buffer self.old) from «data».now }
    {
        self.memory[from..from + data.len()].copy_from_slice(data);
    }

    // Lays zeros over the memory.
    fn lay_zeros(&mut self, from: usize, count: usize)
        requires within { from + count ≤ length (buffer self.old).holds }
        ensures after { buffer self.new ≡ laid (buffer self.old) from (replicate count 0) }
    {
        self.memory[from..from + count].fill(0);
    }
}

impl<'a> WriteContext for WriteBuffer<'a> {
    ghost means = { buffer_means };

    fn write_bytes(&mut self, data: &[u8]) -> Result<(), Refusal>
        ensures answer { told (λ t. t) result ≡ judged (space_dues (room (buffer self.old)) (length «data».now)) tt }
        ensures after { MatchResult result (λ _. Grown buffer_means self.old «data».now self.new) (λ _. Unchanged buffer_means self.old self.new) }
        ensures memory { buffer self.new ≡ after (space_dues (room (buffer self.old)) (length «data».now)) (buffer self.old) (appended (buffer self.old) «data».now) }
    {
        if data.len() > self.space() {
            return Err(Refusal::NoSpace);
        }
        self.append(data);
        Ok(())
    }

    fn write_zeros(&mut self, count: usize) -> Result<(), Refusal>
        ensures answer { told (λ t. t) result ≡ judged (space_dues (room (buffer self.old)) count) tt }
        ensures after { MatchResult result (λ _. Grown buffer_means self.old (replicate count 0) self.new) (λ _. Unchanged buffer_means self.old self.new) }
        ensures memory { buffer self.new ≡ after (space_dues (room (buffer self.old)) count) (buffer self.old) (appended (buffer self.old) (replicate count 0)) }
    {
        if count > self.space() {
            return Err(Refusal::NoSpace);
        }
        self.append_zeros(count);
        Ok(())
    }

    fn write_at(&mut self, offset: usize, data: &[u8]) -> Result<(), Refusal>
        ensures answer { told (λ t. t) result ≡ judged (overlay_dues (end (buffer self.old)) offset (length «data».now)) tt }
        ensures after { MatchResult result (λ _. Overlaid buffer_means self.old offset «data».now self.new) (λ _. Unchanged buffer_means self.old self.new) }
        ensures memory { buffer self.new ≡ after (overlay_dues (end (buffer self.old)) offset (length «data».now)) (buffer self.old) (laid (buffer self.old) offset «data».now) }
    {
        if !lies_before(self.bytes_written(), offset, data.len()) {
            return Err(Refusal::PlaceholderMismatch);
        }
        self.overlay(offset, data);
        Ok(())
    }

    fn bytes_written(&self) -> usize {
        self.count.min(self.memory.len())
    }

    fn space(&self) -> usize {
        self.memory.len() - self.bytes_written()
    }
}
