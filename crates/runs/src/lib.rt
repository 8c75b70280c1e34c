#![tactic(auto)]

ghost use Rattle.std.specs.Prelude.{◌≡◌};

// The most places that a writer may take.
pub fn capacity() -> usize
    ensures value { result ≡ 256 }
{
    256
}
