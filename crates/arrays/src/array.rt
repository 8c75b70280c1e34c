ghost use Rattle.std.specs.Prelude.{◌≡◌, ◌+◌, ◌-◌, ◌*◌, ◌<◌, ◌≤◌, true, ◌++◌, length as many, drop, is_some, IfSome, IfOk, Some, ◌==◌};
ghost use Rattle.refusals.specs.Answers.{told, judged, after};
ghost use Rattle.read.specs.Scopes.{size, Sound as SoundScope};
ghost use Rattle.read.specs.Ctxts.{state, moved, Sound as SoundCtxt};
ghost use Rattle.arrays.specs.Arrays.{array, Whole, next_array, array_dues, stride_dues, item, read_item_of, index_dues, items, is_whole, copy_dues, item_bytes, space_dues};

use kinds::Kind;
use read::{ReadCtxt, ReadScope};
use refusals::Refusal;
use std::marker::PhantomData;

// Items of a kind that lie a stride apart. (It has no `Model`, which a `Copy` type with a lifetime may not
// have. That it is whole, each call that makes one promises, and not the type: a rule of this project, as is said
// in docs/DECISIONS.md. That a read value fits its kind, each read promises, since the value is a plain number.)
#[derive_where(Clone, Copy)]
pub struct ReadArray<'a, K> {
    scope: ReadScope<'a>,
    length: usize,
    stride: usize,
    marker: PhantomData<K>,
}

// The next `length` items, one right after the other.
pub fn read_array<'a, K: Kind>(
    ctxt: &mut ReadCtxt<'a>,
    length: usize,
) -> Result<ReadArray<'a, K>, Refusal>
    ensures answer { told array result ≡ judged (array_dues (state ctxt.old) length K.width) (next_array (state ctxt.old) length K.width) }
    ensures after { state ctxt.new ≡ after (array_dues (state ctxt.old) length K.width) (state ctxt.old) (moved (state ctxt.old) (length * K.width)) }
    ensures whole { IfOk result (λ a. Whole K.width (array a)) }
    ensures sound { SoundCtxt (state ctxt.old) → SoundCtxt (state ctxt.new) × IfOk result (λ a. SoundScope (array a).scope) }
{
    take_array(ctxt, length, K::size())
}

// The next `length` items, each of which begins `stride` bytes after the one before.
pub fn read_array_stride<'a, K: Kind>(
    ctxt: &mut ReadCtxt<'a>,
    length: usize,
    stride: usize,
) -> Result<ReadArray<'a, K>, Refusal>
    ensures answer { told array result ≡ judged (stride_dues K.width (state ctxt.old) length stride) (next_array (state ctxt.old) length stride) }
    ensures after { state ctxt.new ≡ after (stride_dues K.width (state ctxt.old) length stride) (state ctxt.old) (moved (state ctxt.old) (length * stride)) }
    ensures whole { IfOk result (λ a. Whole K.width (array a)) }
    ensures sound { SoundCtxt (state ctxt.old) → SoundCtxt (state ctxt.new) × IfOk result (λ a. SoundScope (array a).scope) }
{
    if K::size() > stride {
        return Err(Refusal::BadValue);
    }
    take_array(ctxt, length, stride)
}

// The next `length` strides as an array.
fn take_array<'a, K: Kind>(
    ctxt: &mut ReadCtxt<'a>,
    length: usize,
    stride: usize,
) -> Result<ReadArray<'a, K>, Refusal>
    ensures answer { told array result ≡ judged (array_dues (state ctxt.old) length stride) (next_array (state ctxt.old) length stride) }
    ensures after { state ctxt.new ≡ after (array_dues (state ctxt.old) length stride) (state ctxt.old) (moved (state ctxt.old) (length * stride)) }
    ensures long { IfOk result (λ a. size (array a).scope ≡ (array a).count * (array a).stride) }
    ensures apart { IfOk result (λ a. (array a).stride ≡ stride) }
    ensures sound { SoundCtxt (state ctxt.old) → SoundCtxt (state ctxt.new) × IfOk result (λ a. SoundScope (array a).scope) }
{
    let size = length.checked_mul(stride).ok_or(Refusal::Overflow)?;
    let scope = ctxt.read_scope(size)?;
    Ok(ReadArray {
        scope,
        length,
        stride,
        marker: PhantomData,
    })
}

impl<'a, K: Kind> ReadArray<'a, K> {
    // How many items there are.
    pub fn len(&self) -> usize
        ensures value { result ≡ (array self.now).count }
    {
        self.length
    }

    // Whether there are none.
    pub fn is_empty(&self) -> bool
        ensures value { result ≡ ((array self.now).count == 0) }
    {
        self.len() == 0
    }

    // BadIndex unless there is an item of that index.
    pub fn check_index(&self, index: usize) -> Result<(), Refusal>
        ensures answer { told (λ t. t) result ≡ judged (index_dues (array self.now) index) tt }
    {
        Refusal::BadIndex.unless(index < self.length)
    }

    // The item of that index, or none past the end.
    pub fn get_item(&self, index: usize) -> Option<K::HostType>
        ensures value { result ≡ item K.width K.value (array self.now) index }
        ensures whole { Whole K.width (array self.now) → index < (array self.now).count → result ≡ Some (K.value (item_bytes K.width (array self.now) index)) }
        ensures fit { IfSome result (λ v. K.fitting v ≡ true) }
    {
        if index >= self.length {
            return None;
        }
        let data = self.scope.data();
        let from = index.checked_mul(self.stride)?;
        let part = data.get(from..)?.get(..K::size())?;
        Some(unsafe { K::read_unchecked(part) })
    }

    // The last item, or none if there are none.
    pub fn last(&self) -> Option<K::HostType>
        ensures value { result ≡ item K.width K.value (array self.now) ((array self.now).count - 1) }
        ensures fit { IfSome result (λ v. K.fitting v ≡ true) }
    {
        self.get_item(self.length.saturating_sub(1))
    }

    // The item of that index, or BadIndex past the end.
    pub fn read_item(&self, index: usize) -> Result<K::HostType, Refusal>
        ensures answer { told (λ v. v) result ≡ read_item_of K.width K.value (array self.now) index }
        ensures whole { Whole K.width (array self.now) → told (λ v. v) result ≡ judged (index_dues (array self.now) index) (K.value (item_bytes K.width (array self.now) index)) }
        ensures fit { IfOk result (λ v. K.fitting v ≡ true) }
    {
        self.check_index(index)?;
        self.get_item(index).ok_or(Refusal::BadEof)
    }

    // An array of no items.
    pub fn empty() -> ReadArray<'a, K>
        ensures count { (array result).count ≡ 0 }
        ensures apart { (array result).stride ≡ K.width }
        ensures base { (array result).scope.base ≡ 0 }
        ensures whole { Whole K.width (array result) }
        ensures sound { SoundScope (array result).scope }
    {
        ReadArray {
            scope: ReadScope::new(&[]),
            length: 0,
            stride: K::size(),
            marker: PhantomData,
        }
    }

    // Copies all items to the front of `out`, and answers how many there are.
    pub fn read_to_vec(&self, out: &mut [K::HostType]) -> Result<usize, Refusal>
        ensures answer { told (λ n. n) result ≡ judged (copy_dues K.width (array self.now) (many out.old)) (array self.now).count }
        ensures whole { Whole K.width (array self.now) → told (λ n. n) result ≡ judged (space_dues (array self.now) (many out.old)) (array self.now).count }
        ensures memory { out.new ≡ after (copy_dues K.width (array self.now) (many out.old)) out.old (items K.width K.value (array self.now) ++ drop (array self.now).count out.old) }
    {
        if out.len() < self.length {
            return Err(Refusal::NoSpace);
        }
        if !self.is_whole() {
            return Err(Refusal::BadEof);
        }
        self.copy(out);
        Ok(self.length)
    }

    // Whether the items' strides are the array's bytes.
    fn is_whole(&self) -> bool
        ensures value { result ≡ is_whole K.width (array self.now) }
        ensures whole { Whole K.width (array self.now) → result ≡ true }
    {
        let held = self.scope.data().len();
        K::size() <= self.stride && self.length.checked_mul(self.stride) == Some(held)
    }

    // Copies the items of a whole array, for which there is space.
    fn copy(&self, out: &mut [K::HostType])
        requires whole { is_whole K.width (array self.now) ≡ true }
        requires space { (array self.now).count ≤ many out.old }
        ensures { out.new ≡ items K.width K.value (array self.now) ++ drop (array self.now).count out.old }
    {
        for (i, v) in self.iter().enumerate() {
            out[i] = v;
        }
    }
}
