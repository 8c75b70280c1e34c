ghost use Rattle.std.specs.Prelude.{◌≡◌, ◌+◌, ◌≤◌, length, replicate, MatchResult, nat_le};
ghost use Rattle.refusals.specs.Answers.{told, judged};
ghost use Rattle.opentype.specs.Alignment.{largest};
ghost use Rattle.context.specs.Contexts.{Context, Grown, Overlaid, Unchanged, space_dues, overlay_dues};

use refusals::Refusal;

// Somewhere that bytes can be written to, one after the other, and over those already written.
pub trait WriteContext {
    // What an implementation means: the byte strings that it stands for, and its space.
    ghost means: { Context Self };

    // Adds the bytes.
    fn write_bytes(&mut self, data: &[u8]) -> Result<(), Refusal>
        ensures answer { told (λ t. t) result ≡ judged (space_dues (means.space self.old) (length «data».now)) tt }
        ensures after { MatchResult result (λ _. Grown means self.old «data».now self.new) (λ _. Unchanged means self.old self.new) };

    // Adds so many zeros.
    fn write_zeros(&mut self, count: usize) -> Result<(), Refusal>
        ensures answer { told (λ t. t) result ≡ judged (space_dues (means.space self.old) count) tt }
        ensures after { MatchResult result (λ _. Grown means self.old (replicate count 0) self.new) (λ _. Unchanged means self.old self.new) };

    // Lays the bytes over those written, from `offset` on.
    fn write_at(&mut self, offset: usize, data: &[u8]) -> Result<(), Refusal>
        ensures answer { told (λ t. t) result ≡ judged (overlay_dues (means.written self.old) offset (length «data».now)) tt }
        ensures after { MatchResult result (λ _. Overlaid means self.old offset «data».now self.new) (λ _. Unchanged means self.old self.new) };

    // How many bytes were written.
    fn bytes_written(&self) -> usize
        ensures value { result ≡ means.written self.now }
        ensures within { result + means.space self.now ≤ largest };

    // How many more bytes there is space for.
    fn space(&self) -> usize
        ensures value { result ≡ means.space self.now }
        ensures within { means.written self.now + result ≤ largest };
}

// Whether `size` bytes from `offset` on lie before `end`, as an implementation of `write_at` asks. (It is no order
// of two values, and the sum could wrap.)
pub fn lies_before(end: usize, offset: usize, size: usize) -> bool
    ensures value { result ≡ nat_le (offset + size) end }
{
    offset <= end && size <= end - offset
}
