ghost use Rattle.std.specs.Prelude.{◌≡◌};
ghost use Rattle.scalars.specs.DataTypes.{IsUnsigned, IsSigned};

use crate::big_endian::{I8, I16Be, I32Be, I64Be, U8, U16Be, U24Be, U32Be, U64Be};
use kinds::{Kind, Scalar};

// How many scalar kinds there are. Each is what OpenType says of it: its size, which values fit, their
// bytes in order, and how bytes are read.
pub fn data_types() -> usize
    ensures count { result ≡ 9 }
    ensures uint8 { IsUnsigned 1 ⟦<U8 as Kind>⟧ ⟦<U8 as Scalar>⟧.integer }
    ensures uint16 { IsUnsigned 2 ⟦<U16Be as Kind>⟧ ⟦<U16Be as Scalar>⟧.integer }
    ensures uint24 { IsUnsigned 3 ⟦<U24Be as Kind>⟧ ⟦<U24Be as Scalar>⟧.integer }
    ensures uint32 { IsUnsigned 4 ⟦<U32Be as Kind>⟧ ⟦<U32Be as Scalar>⟧.integer }
    ensures uint64 { IsUnsigned 8 ⟦<U64Be as Kind>⟧ ⟦<U64Be as Scalar>⟧.integer }
    ensures int8 { IsSigned 1 ⟦<I8 as Kind>⟧ ⟦<I8 as Scalar>⟧.integer }
    ensures int16 { IsSigned 2 ⟦<I16Be as Kind>⟧ ⟦<I16Be as Scalar>⟧.integer }
    ensures int32 { IsSigned 4 ⟦<I32Be as Kind>⟧ ⟦<I32Be as Scalar>⟧.integer }
    ensures int64 { IsSigned 8 ⟦<I64Be as Kind>⟧ ⟦<I64Be as Scalar>⟧.integer }
{
    opentype_types()
}

// The same; apart from its caller, so that a wrong caller is refused at this contract.
fn opentype_types() -> usize
    ensures count { result ≡ 9 }
    ensures uint8 { IsUnsigned 1 ⟦<U8 as Kind>⟧ ⟦<U8 as Scalar>⟧.integer }
    ensures uint16 { IsUnsigned 2 ⟦<U16Be as Kind>⟧ ⟦<U16Be as Scalar>⟧.integer }
    ensures uint24 { IsUnsigned 3 ⟦<U24Be as Kind>⟧ ⟦<U24Be as Scalar>⟧.integer }
    ensures uint32 { IsUnsigned 4 ⟦<U32Be as Kind>⟧ ⟦<U32Be as Scalar>⟧.integer }
    ensures uint64 { IsUnsigned 8 ⟦<U64Be as Kind>⟧ ⟦<U64Be as Scalar>⟧.integer }
    ensures int8 { IsSigned 1 ⟦<I8 as Kind>⟧ ⟦<I8 as Scalar>⟧.integer }
    ensures int16 { IsSigned 2 ⟦<I16Be as Kind>⟧ ⟦<I16Be as Scalar>⟧.integer }
    ensures int32 { IsSigned 4 ⟦<I32Be as Kind>⟧ ⟦<I32Be as Scalar>⟧.integer }
    ensures int64 { IsSigned 8 ⟦<I64Be as Kind>⟧ ⟦<I64Be as Scalar>⟧.integer }
{
    9
}
