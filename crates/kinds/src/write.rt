ghost use Rattle.std.specs.Prelude.{◌≡◌};
ghost use Rattle.refusals.specs.Answers.{told, judged, after};
ghost use Rattle.kinds.specs.Writing.{write_dues, fronted};

use crate::kind::Kind;
use refusals::Refusal;

// Writes the value to the front of `memory`, and answers how many bytes it took.
pub fn write_value<K: Kind>(memory: &mut [u8], v: K::HostType) -> Result<usize, Refusal>
    ensures answer { told (λ n. n) result ≡ judged (write_dues K.width (K.fitting v) memory.old) K.width }
    ensures memory { memory.new ≡ after (write_dues K.width (K.fitting v) memory.old) memory.old (fronted (K.bytes v) memory.old) }
{
    if !K::fits(v) {
        return Err(Refusal::BadValue);
    }
    let n = K::size();
    if memory.len() < n {
        return Err(Refusal::NoSpace);
    }
    unsafe { K::write_unchecked(v, &mut memory[0..n]) };
    Ok(n)
}
