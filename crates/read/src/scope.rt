ghost use Rattle.std.specs.Prelude.{◌≡◌, ◌-◌, IfOk};
ghost use Rattle.refusals.specs.Answers.{told, judged};
ghost use Rattle.read.specs.Scopes.{slice, view, size, scope_over, scope_at, offset_dues, offset_length_dues, Sound};

use refusals::Refusal;

mod ctxt;

pub use ctxt::ReadCtxt;

// A part of a font's bytes, and how far from the font's start it begins. (It has no `Model`, which a `Copy`
// type with a lifetime may not have; contracts speak of its `view`. That it is sound, each call that makes
// one promises, and not the type: a rule of this project, as is said in docs/DECISIONS.md.)
#[derive(Clone, Copy)]
pub struct ReadScope<'a> {
    base: usize,
    data: &'a [u8],
}

impl<'a> ReadScope<'a> {
    // The scope of all of `bytes`.
    pub fn new(bytes: &'a [u8]) -> ReadScope<'a>
        ensures value { view result ≡ scope_over (slice bytes.entry) }
        ensures sound { Sound (view result) }
    {
        ReadScope {
            base: 0,
            data: bytes,
        }
    }

    // The scope's bytes, which are the caller's own.
    pub fn data(&self) -> &'a [u8]
        ensures value { slice result ≡ (view self.now).slice }
    {
        self.data
    }

    // The scope from `offset` on, which is empty past the end.
    pub fn offset(&self, offset: usize) -> Result<ReadScope<'a>, Refusal>
        ensures answer { told view result ≡ judged (offset_dues (view self.now) offset) (scope_at (view self.now) offset (size (view self.now) - offset)) }
        ensures sound { Sound (view self.now) → IfOk result (λ s. Sound (view s)) }
    {
        let base = self.base.checked_add(offset).ok_or(Refusal::Overflow)?;
        let from = offset.min(self.data.len());
        Ok(ReadScope {
            base,
            data: &self.data[from..],
        })
    }

    // The scope of `length` bytes from `offset` on.
    pub fn offset_length(&self, offset: usize, length: usize) -> Result<ReadScope<'a>, Refusal>
        ensures answer { told view result ≡ judged (offset_length_dues (view self.now) offset length) (scope_at (view self.now) offset length) }
        ensures sound { Sound (view self.now) → IfOk result (λ s. Sound (view s)) }
    {
        let size = self.data.len();
        if length > 0 && offset >= size {
            return Err(Refusal::BadOffset);
        }
        let from = offset.min(size);
        if length > size - from {
            return Err(Refusal::BadEof);
        }
        let base = self.base.checked_add(offset).ok_or(Refusal::Overflow)?;
        Ok(ReadScope {
            base,
            data: &self.data[from..from + length],
        })
    }
}
