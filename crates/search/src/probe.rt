ghost use Rattle.std.specs.Prelude.{◌≡◌};
ghost use Rattle.std.specs.declared.cmp.Ordering.{Ordering};

use kinds::Kind;
use std::cmp::Ordering;

// A probe looks for something among the values of a kind: it says of a value whether that lies below
// (Less), is equal, or lies above (Greater), and says the same each time. It is a trait and no closure: what
// it says is a ghost member with a name, over which a search is stated for every probe and every array; of a
// closure it would hold only of those calls that its own contract allows.
pub trait Probe<K: Kind> {
    // What the probe says of a value.
    ghost answers: { Self → K.HostType → Ordering };

    // What the probe says of the value.
    fn probe(&self, v: K::HostType) -> Ordering
        ensures value { result ≡ answers self.now v };
}
