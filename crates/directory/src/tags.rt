ghost use Rattle.std.specs.Prelude.{◌≡◌, Some};
ghost use Rattle.std.specs.Fmt.{WritesOnOk};
ghost use Rattle.directory.specs.Tags.{tag_number};
ghost use Rattle.directory.specs.Listing.{tag_byte, tag_text_of};

use std::fmt;

// A tag, which displays as its four bytes: those from 0x20 to 0x7E as themselves, others as \x and two digits.
#[derive(Clone, Copy)]
pub(crate) struct Tag(pub u32);

impl fmt::Display for Tag {
    ghost output = { λ tag. Some (tag_text_of tag.0) };

    #[tactic(auto, using(text::proofs::Each::each_more, std::proofs::lemmas::Grind::put_two), unfolding(crate::specs::Listing::tag_text_of))]
    fn fmt<W: fmt::Write>(&self, f: &mut fmt::Formatter<W>) -> fmt::Result {
        let Tag(tag) = *self;
        for b in tag.to_be_bytes() {
            write_tag_byte(b, f)?;
        }
        Ok(())
    }
}

// Writes a byte of a tag.
#[tactic(auto, using(text::proofs::Digits::two_digits))]
fn write_tag_byte<W: fmt::Write>(b: u8, f: &mut fmt::Formatter<W>) -> fmt::Result
    ensures { WritesOnOk W.write_str_gives f.old result (tag_byte b) f.new }
{
    match b {
        0x20..=0x7E => f.write_char(char::from(b)),
        _ => write!(f, "\\x{b:02x}"),
    }
}

// The number of a tag that is given as text of at most four bytes, with spaces for those that are missing.
pub fn tag_from_text(text: &[u8]) -> Option<u32>
    ensures value { result ≡ tag_number text.now }
{
    if text.len() > 4 {
        return None;
    }
    let mut tag = *b"    ";
    tag[..text.len()].copy_from_slice(text);
    Some(u32::from_be_bytes(tag))
}
