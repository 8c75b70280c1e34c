ghost use Rattle.std.specs.Prelude.{◌+◌, ◌&&◌, ◌++◌, take, drop};
ghost use Rattle.kinds.specs.Sides.{beside};

use crate::kind::Kind;
use crate::scalar::Scalar;

// Two scalars side by side. Tuples of two, three and four are kinds each by its own: no generic code is over
// the length of a tuple, and a value is to be a plain tuple of numbers.
impl<A: Scalar, B: Scalar> Kind for (A, B) {
    type HostType = (A::HostType, B::HostType);

    ghost width = { A.Kind.width + B.Kind.width };

    ghost fitting = { λ v. A.Kind.fitting v.0 && B.Kind.fitting v.1 };

    ghost bytes = { λ v. A.Kind.bytes v.0 ++ B.Kind.bytes v.1 };

    ghost value = { λ bs. (A.Kind.value (take A.Kind.width bs), B.Kind.value (drop A.Kind.width bs)) };

    ghost lawful = { beside A.Kind.lawful B.Kind.lawful };

    fn size() -> usize {
        <A as Scalar>::size() + <B as Scalar>::size()
    }

    fn fits(v: (A::HostType, B::HostType)) -> bool {
        A::fits(v.0) && B::fits(v.1)
    }

    unsafe fn read_unchecked(part: &[u8]) -> (A::HostType, B::HostType) {
        let (first, second) = part.split_at(<A as Scalar>::size());
        unsafe { (A::read_unchecked(first), B::read_unchecked(second)) }
    }

    unsafe fn write_unchecked(v: (A::HostType, B::HostType), out: &mut [u8]) {
        let (first, second) = out.split_at_mut(<A as Scalar>::size());
        unsafe {
            A::write_unchecked(v.0, first);
            B::write_unchecked(v.1, second);
        }
    }
}
