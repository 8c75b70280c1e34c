#![tactic(auto)]

ghost use Rattle.std.specs.Prelude.{◌≡◌, ◌<◌, [], ◌∷◌, ◌++◌, string_bytes, decimal, OnOk};
ghost use Rattle.text.specs.Hexadecimal.{nibble, hex_byte, hex};

use std::alloc::AllocError;

// Appends the number in decimal.
pub fn push_decimal(out: &mut String, n: usize) -> Result<(), AllocError>
    ensures { OnOk result (string_bytes out.new ≡ string_bytes out.old ++ decimal n) }
{
    write!(out, "{n}")
}

// Appends each byte as two hexadecimal digits, in lower case.
pub fn push_hex(out: &mut String, bytes: &[u8]) -> Result<(), AllocError>
    ensures { OnOk result (string_bytes out.new ≡ string_bytes out.old ++ hex bytes.now) }
{
    push_hex_bytes(out, bytes)
}

// Appends the byte as two hexadecimal digits, in lower case.
pub fn push_hex_byte(out: &mut String, b: u8) -> Result<(), AllocError>
    ensures { OnOk result (string_bytes out.new ≡ string_bytes out.old ++ hex_byte b) }
{
    push_digits(out, b / 16, b % 16)
}

// The same as `push_hex`, with the loop; apart from it, so that a wrong `push_hex` is refused at its contract.
#[tactic(auto, using(crate::proofs::Each::each_more, std::proofs::Common::append_assoc))]
fn push_hex_bytes(out: &mut String, bytes: &[u8]) -> Result<(), AllocError>
    ensures { OnOk result (string_bytes out.new ≡ string_bytes out.old ++ hex bytes.now) }
{
    for b in bytes {
        push_hex_byte(out, *b)?;
    }
    Ok(())
}

// Appends two digits. (By `{:02x}` it took some seven times as long.)
fn push_digits(out: &mut String, high: u8, low: u8) -> Result<(), AllocError>
    requires high { high < 16 }
    requires low { low < 16 }
    ensures { OnOk result (string_bytes out.new ≡ string_bytes out.old ++ (nibble high ∷ nibble low ∷ [])) }
{
    out.push(digit(high))?;
    out.push(digit(low))?;
    Ok(())
}

// A digit in lower case.
fn digit(n: u8) -> char
    requires { n < 16 }
    ensures value { result ≡ nibble n }
    ensures ascii { result < 128 }
{
    if n < 10 {
        char::from(b'0' + n)
    } else {
        char::from(b'a' - 10 + n)
    }
}
