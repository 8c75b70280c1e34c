ghost use Rattle.std.specs.Prelude.{◌≡◌};
ghost use Rattle.arrays.specs.Arrays.{array, Whole};
ghost use Rattle.search.specs.Halving.{asked, halves};
ghost use Rattle.search.specs.Found.{said_of, Runs, Found};

use crate::probe::Probe;
use arrays::ReadArray;
use kinds::Kind;
use std::cmp::Ordering;

// Looks for an item that the probe calls equal: its index, or the place where one would go in. Where the
// items run below, equal, above, that is what it finds; elsewhere, and among several equal ones, it
// answers what the halving comes to.
pub fn binary_search_by<'a, K: Kind, P: Probe<K>>(
    items: &ReadArray<'a, K>,
    probe: &P,
) -> Result<usize, usize>
    ensures value { result ≡ halves (asked K.width K.value (P.answers probe.now) (array items.now)) (array items.now).count 0 (array items.now).count }
    ensures found { Whole K.width (array items.now) → Runs (said_of K.width K.value (P.answers probe.now) (array items.now)) (array items.now).count → Found (said_of K.width K.value (P.answers probe.now) (array items.now)) (array items.now).count result }
{
    halve(items, probe)
}

// The same, with the loop; apart from its caller, so that a wrong caller is refused at this contract.
// It halves what is left until the middle is equal or nothing is left.
fn halve<'a, K: Kind, P: Probe<K>>(items: &ReadArray<'a, K>, probe: &P) -> Result<usize, usize>
    ensures value { result ≡ halves (asked K.width K.value (P.answers probe.now) (array items.now)) (array items.now).count 0 (array items.now).count }
    ensures found { Whole K.width (array items.now) → Runs (said_of K.width K.value (P.answers probe.now) (array items.now)) (array items.now).count → Found (said_of K.width K.value (P.answers probe.now) (array items.now)) (array items.now).count result }
{
    let mut left = 0;
    let mut right = items.len();
    loop {
        if left >= right {
            break Err(left);
        }
        let mid = left + (right - left) / 2;
        // The loop is left with an answer here, so no `?` will do.
        let Some(v) = items.get_item(mid) else {
            break Err(left);
        };
        match probe.probe(v) {
            Ordering::Less => left = mid + 1,
            Ordering::Greater => right = mid,
            Ordering::Equal => break Ok(mid),
        }
    }
}
