ghost use Rattle.std.specs.Prelude.{◌≡◌, true, not, [], ◌∷◌, IfOk, nat_lt};
ghost use Rattle.refusals.specs.declared.refusal.Refusal.TheVariants.{BadIndex, BadValue, BadVersion};
ghost use Rattle.refusals.specs.Answers.{told, due, judged, after};
ghost use Rattle.opentype.specs.Numbers.{number_of, signed};
ghost use Rattle.read.specs.Scopes.{slice, view, size, scope_at, Sound as SoundScope};
ghost use Rattle.read.specs.Ctxts.{state, start, left, next, next_slice, next_scope, take_dues, moved, Sound};

use super::ReadScope;
use kinds::Kind;
use refusals::Refusal;
use scalars::{I8, I16Be, I32Be, I64Be, U8, U16Be, U32Be, U64Be};

// A scope and a position in it, which moves on as values are read. (Contracts speak of its `state`, for the
// reason that a scope has no `Model`.)
#[derive(Clone, Copy)]
pub struct ReadCtxt<'a> {
    scope: ReadScope<'a>,
    offset: usize,
}

impl<'a> ReadScope<'a> {
    // A context at the scope's start.
    pub fn ctxt(&self) -> ReadCtxt<'a>
        ensures value { state result ≡ start (view self.now) }
        ensures sound { SoundScope (view self.now) → Sound (state result) }
    {
        ReadCtxt {
            scope: *self,
            offset: 0,
        }
    }

    // The value at the scope's start.
    pub fn read<K: Kind>(&self) -> Result<K::HostType, Refusal>
        ensures answer { told (λ v. v) result ≡ judged (take_dues (start (view self.now)) K.width) (K.value (next (start (view self.now)) K.width)) }
        ensures fit { IfOk result (λ v. K.fitting v ≡ true) }
    {
        self.ctxt().read::<K>()
    }
}

impl<'a> ReadCtxt<'a> {
    // Three names of the original, kept by the same rule as the reads below, for one thing, `Refusal::unless`.

    // BadValue unless the condition holds.
    pub fn check(&self, cond: bool) -> Result<(), Refusal>
        ensures answer { told (λ t. t) result ≡ judged (due BadValue (not cond) ∷ []) tt }
    {
        Refusal::BadValue.unless(cond)
    }

    // BadIndex unless the condition holds.
    pub fn check_index(&self, cond: bool) -> Result<(), Refusal>
        ensures answer { told (λ t. t) result ≡ judged (due BadIndex (not cond) ∷ []) tt }
    {
        Refusal::BadIndex.unless(cond)
    }

    // BadVersion unless the condition holds.
    pub fn check_version(&self, cond: bool) -> Result<(), Refusal>
        ensures answer { told (λ t. t) result ≡ judged (due BadVersion (not cond) ∷ []) tt }
    {
        Refusal::BadVersion.unless(cond)
    }

    // The scope of what remains.
    pub fn scope(&self) -> ReadScope<'a>
        ensures value { view result ≡ next_scope (state self.now) (left (state self.now)) }
        ensures sound { Sound (state self.now) → SoundScope (view result) }
    {
        let from = self.offset.min(self.scope.data.len());
        ReadScope {
            base: self.scope.base.saturating_add(self.offset),
            data: &self.scope.data[from..],
        }
    }

    // Whether a byte remains.
    pub fn bytes_available(&self) -> bool
        ensures value { result ≡ nat_lt 0 (left (state self.now)) }
    {
        self.offset < self.scope.data.len()
    }

    // Whether fewer than `length` bytes remain.
    fn lacks(&self, length: usize) -> bool
        ensures value { result ≡ nat_lt (left (state self.now)) length }
    {
        self.scope.data.len().saturating_sub(self.offset) < length
    }

    // The next `length` bytes, which are the caller's own.
    pub fn read_slice(&mut self, length: usize) -> Result<&'a [u8], Refusal>
        ensures answer { told slice result ≡ judged (take_dues (state self.old) length) (next_slice (state self.old) length) }
        ensures after { state self.new ≡ after (take_dues (state self.old) length) (state self.old) (moved (state self.old) length) }
        ensures sound { Sound (state self.old) → Sound (state self.new) }
    {
        if self.lacks(length) {
            return Err(Refusal::BadEof);
        }
        let from = self.offset.min(self.scope.data.len());
        self.offset += length;
        Ok(&self.scope.data[from..from + length])
    }

    // The next `length` bytes as a scope.
    pub fn read_scope(&mut self, length: usize) -> Result<ReadScope<'a>, Refusal>
        ensures answer { told view result ≡ judged (take_dues (state self.old) length) (next_scope (state self.old) length) }
        ensures after { state self.new ≡ after (take_dues (state self.old) length) (state self.old) (moved (state self.old) length) }
        ensures sound { Sound (state self.old) → Sound (state self.new) × IfOk result (λ s. SoundScope (view s)) }
    {
        let base = self.scope.base.saturating_add(self.offset);
        let data = self.read_slice(length)?;
        Ok(ReadScope { base, data })
    }

    // The next value of a kind.
    pub fn read<K: Kind>(&mut self) -> Result<K::HostType, Refusal>
        ensures answer { told (λ v. v) result ≡ judged (take_dues (state self.old) K.width) (K.value (next (state self.old) K.width)) }
        ensures after { state self.new ≡ after (take_dues (state self.old) K.width) (state self.old) (moved (state self.old) K.width) }
        ensures fit { IfOk result (λ v. K.fitting v ≡ true) }
        ensures sound { Sound (state self.old) → Sound (state self.new) }
    {
        let part = self.read_slice(K::size())?;
        Ok(unsafe { K::read_unchecked(part) })
    }

    // The reads that follow are the original's by name, a rule of this port (docs/DECISIONS.md). Each is one line
    // over `read`.

    // The next unsigned number of 8 bits.
    pub fn read_u8(&mut self) -> Result<u8, Refusal>
        ensures answer { told (λ v. v) result ≡ judged (take_dues (state self.old) 1) (number_of (next (state self.old) 1)) }
        ensures after { state self.new ≡ after (take_dues (state self.old) 1) (state self.old) (moved (state self.old) 1) }
        ensures sound { Sound (state self.old) → Sound (state self.new) }
    {
        self.read::<U8>()
    }

    // The next signed number of 8 bits.
    pub fn read_i8(&mut self) -> Result<i8, Refusal>
        ensures answer { told (λ v. v) result ≡ judged (take_dues (state self.old) 1) (signed 1 (number_of (next (state self.old) 1))) }
        ensures after { state self.new ≡ after (take_dues (state self.old) 1) (state self.old) (moved (state self.old) 1) }
        ensures sound { Sound (state self.old) → Sound (state self.new) }
    {
        self.read::<I8>()
    }

    // The next unsigned number of 16 bits.
    pub fn read_u16be(&mut self) -> Result<u16, Refusal>
        ensures answer { told (λ v. v) result ≡ judged (take_dues (state self.old) 2) (number_of (next (state self.old) 2)) }
        ensures after { state self.new ≡ after (take_dues (state self.old) 2) (state self.old) (moved (state self.old) 2) }
        ensures sound { Sound (state self.old) → Sound (state self.new) }
    {
        self.read::<U16Be>()
    }

    // The next signed number of 16 bits.
    pub fn read_i16be(&mut self) -> Result<i16, Refusal>
        ensures answer { told (λ v. v) result ≡ judged (take_dues (state self.old) 2) (signed 2 (number_of (next (state self.old) 2))) }
        ensures after { state self.new ≡ after (take_dues (state self.old) 2) (state self.old) (moved (state self.old) 2) }
        ensures sound { Sound (state self.old) → Sound (state self.new) }
    {
        self.read::<I16Be>()
    }

    // The next unsigned number of 32 bits.
    pub fn read_u32be(&mut self) -> Result<u32, Refusal>
        ensures answer { told (λ v. v) result ≡ judged (take_dues (state self.old) 4) (number_of (next (state self.old) 4)) }
        ensures after { state self.new ≡ after (take_dues (state self.old) 4) (state self.old) (moved (state self.old) 4) }
        ensures sound { Sound (state self.old) → Sound (state self.new) }
    {
        self.read::<U32Be>()
    }

    // The next signed number of 32 bits.
    pub fn read_i32be(&mut self) -> Result<i32, Refusal>
        ensures answer { told (λ v. v) result ≡ judged (take_dues (state self.old) 4) (signed 4 (number_of (next (state self.old) 4))) }
        ensures after { state self.new ≡ after (take_dues (state self.old) 4) (state self.old) (moved (state self.old) 4) }
        ensures sound { Sound (state self.old) → Sound (state self.new) }
    {
        self.read::<I32Be>()
    }

    // The next unsigned number of 64 bits.
    pub fn read_u64be(&mut self) -> Result<u64, Refusal>
        ensures answer { told (λ v. v) result ≡ judged (take_dues (state self.old) 8) (number_of (next (state self.old) 8)) }
        ensures after { state self.new ≡ after (take_dues (state self.old) 8) (state self.old) (moved (state self.old) 8) }
        ensures sound { Sound (state self.old) → Sound (state self.new) }
    {
        self.read::<U64Be>()
    }

    // The next signed number of 64 bits.
    pub fn read_i64be(&mut self) -> Result<i64, Refusal>
        ensures answer { told (λ v. v) result ≡ judged (take_dues (state self.old) 8) (signed 8 (number_of (next (state self.old) 8))) }
        ensures after { state self.new ≡ after (take_dues (state self.old) 8) (state self.old) (moved (state self.old) 8) }
        ensures sound { Sound (state self.old) → Sound (state self.new) }
    {
        self.read::<I64Be>()
    }
}
