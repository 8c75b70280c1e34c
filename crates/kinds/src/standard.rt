ghost use Rattle.std.specs.Prelude.{◌≡◌};
ghost use Rattle.kinds.specs.Tuples.{IsPair, IsTriple, IsQuad};

use crate::kind::Kind;
use crate::scalar::Scalar;

// The most parts that a tuple kind has. A tuple of any scalar kinds is the kinds side by side.
pub fn tuple_parts<A: Scalar, B: Scalar, C: Scalar, D: Scalar>() -> usize
    ensures count { result ≡ 4 }
    ensures pair { IsPair A.Kind B.Kind ⟦<(A, B) as Kind>⟧ }
    ensures triple { IsTriple A.Kind B.Kind C.Kind ⟦<(A, B, C) as Kind>⟧ }
    ensures quad { IsQuad A.Kind B.Kind C.Kind D.Kind ⟦<(A, B, C, D) as Kind>⟧ }
{
    4
}
