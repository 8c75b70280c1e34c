ghost use Rattle.std.specs.Prelude.{◌+◌, ◌&&◌, ◌++◌, take, drop, refl};
ghost use Rattle.kinds.specs.Sides.{beside, through};

use crate::kind::Kind;
use crate::scalar::Scalar;

// Three scalars side by side.
impl<A: Scalar, B: Scalar, C: Scalar> Kind for (A, B, C) {
    type HostType = (A::HostType, B::HostType, C::HostType);

    ghost width = { A.Kind.width + (B.Kind.width + C.Kind.width) };

    ghost fitting = { λ v. A.Kind.fitting v.0 && (B.Kind.fitting v.1 && C.Kind.fitting v.2) };

    ghost bytes = { λ v. A.Kind.bytes v.0 ++ (B.Kind.bytes v.1 ++ C.Kind.bytes v.2) };

    ghost value = { λ bs. (A.Kind.value (take A.Kind.width bs), B.Kind.value (take B.Kind.width (drop A.Kind.width bs)), C.Kind.value (drop B.Kind.width (drop A.Kind.width bs))) };

    ghost lawful = { through (λ w. (w.0, (w.1, w.2))) (λ v. (v.0, v.1.0, v.1.1)) (λ v. refl) (λ w. refl)
        (beside A.Kind.lawful (beside B.Kind.lawful C.Kind.lawful)) };

    fn size() -> usize {
        <A as Scalar>::size() + <B as Scalar>::size() + <C as Scalar>::size()
    }

    fn fits(v: (A::HostType, B::HostType, C::HostType)) -> bool {
        A::fits(v.0) && B::fits(v.1) && C::fits(v.2)
    }

    unsafe fn read_unchecked(part: &[u8]) -> (A::HostType, B::HostType, C::HostType) {
        let (first, rest) = part.split_at(<A as Scalar>::size());
        let (second, third) = rest.split_at(<B as Scalar>::size());
        unsafe {
            (
                A::read_unchecked(first),
                B::read_unchecked(second),
                C::read_unchecked(third),
            )
        }
    }

    unsafe fn write_unchecked(v: (A::HostType, B::HostType, C::HostType), out: &mut [u8]) {
        let (first, rest) = out.split_at_mut(<A as Scalar>::size());
        let (second, third) = rest.split_at_mut(<B as Scalar>::size());
        unsafe {
            A::write_unchecked(v.0, first);
            B::write_unchecked(v.1, second);
            C::write_unchecked(v.2, third);
        }
    }
}
