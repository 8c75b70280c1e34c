ghost use Rattle.std.specs.Prelude.{◌≡◌, ℕ, ◌≤◌, Bool, true, List, length};
ghost use Rattle.kinds.specs.Laws.{Lawful};

// A kind is a binary data type: how many bytes a value takes, which host values fit, and the bytes
// of each that does. Arrays, contexts and the writer are written once, for every kind.
pub trait Kind {
    // The type of a value in the program.
    type HostType: Copy;

    // How many bytes a value takes.
    ghost width: { ℕ };

    // Which host values fit.
    ghost fitting: { Self.HostType → Bool };

    // The bytes of a value that fits.
    ghost bytes: { Self.HostType → List ℕ };

    // The value that bytes stand for.
    ghost value: { List ℕ → Self.HostType };

    // How many bytes a value takes, from 1 to 64.
    fn size() -> usize
        ensures value { result ≡ width }
        ensures some { 1 ≤ result }
        ensures most { result ≤ 64 };

    // Whether the value fits.
    fn fits(v: Self::HostType) -> bool
        ensures value { result ≡ fitting v };

    // Inner: the value of just the bytes that it takes.
    unsafe fn read_unchecked(part: &[u8]) -> Self::HostType
        requires long { length part.now ≡ width }
        ensures value { result ≡ value part.now }
        ensures fit { fitting result ≡ true };

    // Inner: writes a value that fits into just the bytes that it takes.
    unsafe fn write_unchecked(v: Self::HostType, out: &mut [u8])
        requires fit { fitting v ≡ true }
        requires long { length out.old ≡ width }
        ensures bytes { out.new ≡ bytes v };

    // A value that fits has so many bytes, and reads back; any so many bytes are a value that fits.
    ghost lawful: { Lawful width fitting bytes value };
}
