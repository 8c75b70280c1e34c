ghost use Rattle.std.specs.Prelude.{◌≡◌};
ghost use Rattle.search.specs.Orders.{order};

use crate::probe::Probe;
use kinds::Scalar;
use std::cmp::Ordering;

// Looks for a tuple by its first number.
#[derive(Drop)]
pub struct FirstNumber<A: Scalar> {
    want: A::HostType,
}

impl<A: Scalar> FirstNumber<A> {
    // A probe for tuples that begin with that number.
    pub fn new(want: A::HostType) -> FirstNumber<A>
        ensures value { result.want ≡ want }
    {
        FirstNumber { want }
    }
}

// Once for each length that a tuple kind has: a trait for "the first part" would be implemented as often.
impl<A: Scalar, B: Scalar> Probe<(A, B)> for FirstNumber<A> {
    ghost answers = { λ p v. order (A.Scalar.integer v.0) (A.Scalar.integer p.want) };

    fn probe(&self, v: (A::HostType, B::HostType)) -> Ordering {
        let (first, _) = v;
        A::to_i128(first).cmp(&A::to_i128(self.want))
    }
}

impl<A: Scalar, B: Scalar, C: Scalar> Probe<(A, B, C)> for FirstNumber<A> {
    ghost answers = { λ p v. order (A.Scalar.integer v.0) (A.Scalar.integer p.want) };

    fn probe(&self, v: (A::HostType, B::HostType, C::HostType)) -> Ordering {
        let (first, _, _) = v;
        A::to_i128(first).cmp(&A::to_i128(self.want))
    }
}

impl<A: Scalar, B: Scalar, C: Scalar, D: Scalar> Probe<(A, B, C, D)> for FirstNumber<A> {
    ghost answers = { λ p v. order (A.Scalar.integer v.0) (A.Scalar.integer p.want) };

    fn probe(&self, v: (A::HostType, B::HostType, C::HostType, D::HostType)) -> Ordering {
        let (first, _, _, _) = v;
        A::to_i128(first).cmp(&A::to_i128(self.want))
    }
}
