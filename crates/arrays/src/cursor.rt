ghost use Rattle.std.specs.Prelude.{◌≡◌, ◌≤◌, IfSome, Some};
ghost use Rattle.std.specs.Iterator.{at_most, IsFinite, UpTo};
ghost use Rattle.arrays.specs.Arrays.{array};
ghost use Rattle.arrays.specs.Cursors.{cursor, over, remaining as left, forward, FirstTaken, LastTaken, AnswerTaken};

use crate::array::ReadArray;
use kinds::Kind;
use refusals::Refusal;

// A cursor over an array's items, from both ends.
#[derive_where(Clone, Copy)]
pub struct ReadArrayIter<'a, K> {
    array: ReadArray<'a, K>,
    index: usize,
    end: usize,
}

// A cursor that goes forward and gives each item as `read_item` answers it.
#[derive_where(Clone, Copy)]
pub struct ReadArrayResIter<'a, K> {
    array: ReadArray<'a, K>,
    index: usize,
}

impl<'a, K: Kind> ReadArray<'a, K> {
    // A cursor over all items.
    pub fn iter(&self) -> ReadArrayIter<'a, K>
        ensures value { cursor result ≡ over (array self.now) }
    {
        ReadArrayIter {
            array: *self,
            index: 0,
            end: self.len(),
        }
    }

    // A cursor over what `read_item` answers for all items.
    pub fn iter_res(&self) -> ReadArrayResIter<'a, K>
        ensures value { forward result ≡ over (array self.now) }
    {
        let first = 0;
        ReadArrayResIter {
            array: *self,
            index: first,
        }
    }
}

impl<'a, K: Kind> Iterator for ReadArrayIter<'a, K> {
    type Item = K::HostType;

    ghost next_gives = { λ s r t. FirstTaken K.width K.value (cursor s) K.fitting r (cursor t) };

    ghost remaining = { λ s. at_most (left (cursor s)) };

    // The first item still to come.
    fn next(&mut self) -> Option<K::HostType> {
        if self.index >= self.end {
            return None;
        }
        let item = self.array.get_item(self.index)?;
        self.index += 1;
        Some(item)
    }

    // How many items are still to come, as both bounds. (The other cursor's has the same body: the trait asks it
    // of each type.)
    fn size_hint(&self) -> (usize, Option<usize>)
        ensures lower { IsFinite (at_most (left (cursor self.now))) → result.0 ≤ left (cursor self.now) }
        ensures upper { IfSome result.1 (UpTo (at_most (left (cursor self.now)))) }
        ensures value { result ≡ (left (cursor self.now), Some (left (cursor self.now))) }
    {
        let n = self.len();
        (n, Some(n))
    }
}

impl<'a, K: Kind> IntoIterator for &ReadArray<'a, K> {
    type Item = K::HostType;

    type IntoIter = ReadArrayIter<'a, K>;

    ghost into_iter_gives = { λ a r. cursor r ≡ over (array a.now) };

    // A cursor over all items.
    fn into_iter(self) -> ReadArrayIter<'a, K> {
        self.iter()
    }
}

impl<'a, K: Kind> DoubleEndedIterator for ReadArrayIter<'a, K> {
    ghost next_back_gives = { λ s r t. LastTaken K.width K.value (cursor s) K.fitting r (cursor t) };

    // The last item still to come.
    fn next_back(&mut self) -> Option<K::HostType> {
        if self.end <= self.index {
            return None;
        }
        let item = self.array.get_item(self.end - 1)?;
        self.end -= 1;
        Some(item)
    }
}

impl<'a, K: Kind> ExactSizeIterator for ReadArrayIter<'a, K> {
    // How many items are still to come.
    fn len(&self) -> usize
        ensures value { result ≡ left (cursor self.now) }
    {
        self.end.saturating_sub(self.index)
    }
}

impl<'a, K: Kind> Iterator for ReadArrayResIter<'a, K> {
    type Item = Result<K::HostType, Refusal>;

    ghost next_gives = { λ s r t. AnswerTaken K.width K.value (forward s) r (forward t) };

    ghost remaining = { λ s. at_most (left (forward s)) };

    // What `read_item` answers for the first item still to come.
    fn next(&mut self) -> Option<Result<K::HostType, Refusal>> {
        let index = self.index;
        if index >= self.array.len() {
            return None;
        }
        self.index = index + 1;
        Some(self.array.read_item(index))
    }

    // How many items are still to come, as both bounds.
    fn size_hint(&self) -> (usize, Option<usize>)
        ensures lower { IsFinite (at_most (left (forward self.now))) → result.0 ≤ left (forward self.now) }
        ensures upper { IfSome result.1 (UpTo (at_most (left (forward self.now)))) }
        ensures value { result ≡ (left (forward self.now), Some (left (forward self.now))) }
    {
        let rest = self.len();
        (rest, Some(rest))
    }
}

impl<'a, K: Kind> ExactSizeIterator for ReadArrayResIter<'a, K> {
    // How many items are still to come.
    fn len(&self) -> usize
        ensures value { result ≡ left (forward self.now) }
    {
        self.array.len().saturating_sub(self.index)
    }
}
