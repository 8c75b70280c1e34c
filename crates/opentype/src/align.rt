ghost use Rattle.std.specs.Prelude.{◌≡◌, [], ◌∷◌, nat_lt};
ghost use Rattle.refusals.specs.declared.refusal.Refusal.TheVariants.{Overflow};
ghost use Rattle.refusals.specs.Answers.{told, due, judged};
ghost use Rattle.opentype.specs.Alignment.{largest, round_up, LeastMultiple};

use refusals::Refusal;

// `long_align` and `word_align` are the original's names, a rule of this port (docs/DECISIONS.md). Each is one line.

// The least multiple of 4 not below `len`, or Overflow where no usize is one.
pub fn long_align(len: usize) -> Result<usize, Refusal>
    ensures answer { told (λ p. p) result ≡ judged (due Overflow (nat_lt largest (round_up 4 len)) ∷ []) (round_up 4 len) }
    ensures least { LeastMultiple 4 len (round_up 4 len) }
{
    len.checked_next_multiple_of(4).ok_or(Refusal::Overflow)
}

// The least multiple of 2 not below `len`, or Overflow where no usize is one.
pub fn word_align(len: usize) -> Result<usize, Refusal>
    ensures answer { told (λ p. p) result ≡ judged (due Overflow (nat_lt largest (round_up 2 len)) ∷ []) (round_up 2 len) }
    ensures least { LeastMultiple 2 len (round_up 2 len) }
{
    len.checked_next_multiple_of(2).ok_or(Refusal::Overflow)
}

// A 32-bit number of a font as a usize, which has 64 bits: the value is kept. (Neither Rust nor Rattle has
// `From<u32>` for usize, so the original's function stays.)
pub fn safe_from(v: u32) -> usize
    ensures value { result ≡ v }
{
    v as usize
}
