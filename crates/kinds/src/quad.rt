ghost use Rattle.std.specs.Prelude.{◌+◌, ◌&&◌, ◌++◌, take, drop, refl};
ghost use Rattle.kinds.specs.Sides.{beside, through};

use crate::kind::Kind;
use crate::scalar::Scalar;

// Four scalars side by side.
impl<A: Scalar, B: Scalar, C: Scalar, D: Scalar> Kind for (A, B, C, D) {
    type HostType = (A::HostType, B::HostType, C::HostType, D::HostType);

    ghost width = { A.Kind.width + (B.Kind.width + (C.Kind.width + D.Kind.width)) };

    ghost fitting = { λ v. A.Kind.fitting v.0 && (B.Kind.fitting v.1 && (C.Kind.fitting v.2 && D.Kind.fitting v.3)) };

    ghost bytes = { λ v. A.Kind.bytes v.0 ++ (B.Kind.bytes v.1 ++ (C.Kind.bytes v.2 ++ D.Kind.bytes v.3)) };

    ghost value = { λ bs. (A.Kind.value (take A.Kind.width bs), B.Kind.value (take B.Kind.width (drop A.Kind.width bs)), C.Kind.value (take C.Kind.width (drop B.Kind.width (drop A.Kind.width bs))), D.Kind.value (drop C.Kind.width (drop B.Kind.width (drop A.Kind.width bs)))) };

    ghost lawful = { through (λ w. (w.0, (w.1, (w.2, w.3)))) (λ v. (v.0, v.1.0, v.1.1.0, v.1.1.1)) (λ v. refl) (λ w. refl)
        (beside A.Kind.lawful (beside B.Kind.lawful (beside C.Kind.lawful D.Kind.lawful))) };

    fn size() -> usize {
        <A as Scalar>::size()
            + <B as Scalar>::size()
            + <C as Scalar>::size()
            + <D as Scalar>::size()
    }

    fn fits(v: (A::HostType, B::HostType, C::HostType, D::HostType)) -> bool {
        A::fits(v.0) && B::fits(v.1) && C::fits(v.2) && D::fits(v.3)
    }

    unsafe fn read_unchecked(part: &[u8]) -> (A::HostType, B::HostType, C::HostType, D::HostType) {
        let (first, rest) = part.split_at(<A as Scalar>::size());
        let (second, rest) = rest.split_at(<B as Scalar>::size());
        let (third, fourth) = rest.split_at(<C as Scalar>::size());
        unsafe {
            (
                A::read_unchecked(first),
                B::read_unchecked(second),
                C::read_unchecked(third),
                D::read_unchecked(fourth),
            )
        }
    }

    unsafe fn write_unchecked(
        v: (A::HostType, B::HostType, C::HostType, D::HostType),
        out: &mut [u8],
    ) {
        let (first, rest) = out.split_at_mut(<A as Scalar>::size());
        let (second, rest) = rest.split_at_mut(<B as Scalar>::size());
        let (third, fourth) = rest.split_at_mut(<C as Scalar>::size());
        unsafe {
            A::write_unchecked(v.0, first);
            B::write_unchecked(v.1, second);
            C::write_unchecked(v.2, third);
            D::write_unchecked(v.3, fourth);
        }
    }
}
