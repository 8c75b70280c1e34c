ghost use Rattle.std.specs.Prelude.{◌≡◌, ◌≤◌, ℤ};

use crate::kind::Kind;

// A scalar kind is a kind whose host value is one number.
pub trait Scalar: Kind {
    // The number that a host value is.
    ghost integer: { Self.HostType → ℤ };

    // How many bytes a value takes, at most 8. (The kind's own question promises at most 64; each promises its bound
    // by its contract, and not by a law.)
    fn size() -> usize
        ensures value { result ≡ Self.Kind.width }
        ensures some { 1 ≤ result }
        ensures most { result ≤ 8 };

    // The value's number.
    fn to_i128(v: Self::HostType) -> i128
        ensures value { result ≡ integer v };

    // A host value is no more than its number.
    ghost one: { (v w : Self.HostType) → integer v ≡ integer w → v ≡ w };
}
