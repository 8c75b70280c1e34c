ghost use Rattle.std.specs.Prelude.{◌≡◌};
ghost use Rattle.search.specs.Orders.{order};

use crate::probe::Probe;
use kinds::Scalar;
use std::cmp::Ordering;

// Looks for a number. (`FirstNumber` holds the same and looks for a tuple: the name says which.)
#[derive(Drop)]
pub struct Number<A: Scalar> {
    want: A::HostType,
}

impl<A: Scalar> Number<A> {
    // A probe for that number.
    pub fn new(want: A::HostType) -> Number<A>
        ensures value { result.want ≡ want }
    {
        Number { want }
    }
}

impl<A: Scalar> Probe<A> for Number<A> {
    ghost answers = { λ p v. order (A.Scalar.integer v) (A.Scalar.integer p.want) };

    fn probe(&self, v: A::HostType) -> Ordering {
        A::to_i128(v).cmp(&A::to_i128(self.want))
    }
}
