ghost use Rattle.std.specs.Prelude.{◌≡◌, ℕ, ℤ, ◌^◌, ◌%◌, ◌≤◌, Bool, cond, Some, None};
ghost use Rattle.opentype.specs.Numbers.{big_endian, number_of};
ghost use Rattle.kinds.specs.Laws.{Lawful};

// A number format: how many bytes a number takes, which host values fit, and the bits that stand for each.
// The primitive number types are formats of their own size.
pub trait Format {
    // The type of a value in the program.
    type HostType: Copy + Into<i128>;

    // How many bytes a value takes.
    ghost SIZE: { ℕ };

    // Which host values fit.
    ghost fitting: { Self.HostType → Bool };

    // The number that a host value is.
    ghost integer: { Self.HostType → ℤ };

    // The bits of a value, read as an unsigned number.
    ghost bits: { Self.HostType → ℕ };

    // The value that bits stand for.
    ghost value: { ℕ → Self.HostType };

    // How many bytes a value takes.
    const SIZE: usize;

    // The bits of a value, if it fits.
    fn to_bits(v: Self::HostType) -> Option<u64>
        ensures value { result ≡ cond (fitting v) (Some (bits v)) None };

    // The value of the number's low bits, as many as a value has.
    fn from_bits(n: u64) -> Self::HostType
        ensures value { result ≡ value (n % 256 ^ SIZE) };

    // A value takes from 1 to 8 bytes.
    ghost few: { (1 ≤ SIZE) × (SIZE ≤ 8) };

    // Values and the bytes of their bits keep the laws of a kind.
    ghost lawful: { Lawful SIZE fitting (λ v. big_endian SIZE (bits v)) (λ bs. value (number_of bs)) };

    // A host value is no more than its number ..
    ghost one: { (v w : Self.HostType) → integer v ≡ integer w → v ≡ w };

    // .. and is converted to it.
    ghost exact: { (v : Self.HostType) (n : ℤ) → Self.HostType.converts v n → n ≡ integer v };
}
