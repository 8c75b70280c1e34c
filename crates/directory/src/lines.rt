ghost use Rattle.std.specs.Prelude.{◌≡◌, IfOk, Some, string_bytes};
ghost use Rattle.arrays.specs.Arrays.{array};
ghost use Rattle.read.specs.Scopes.{slice};
ghost use Rattle.directory.specs.Tags.{tag_number};
ghost use Rattle.directory.specs.Listing.{table_text_of, header_text_of, directory_text_of, refusal_line_of, listing_of, line_for_found, table_tagged_in, named_of};

use crate::tables::{Directory, Header, TableRecord, read_directory};
use crate::tags::{Tag, tag_from_text};
use refusals::Refusal;
use std::alloc::{AllocError, Global};
use std::fmt;

// The directory of a font as text: a line for the header and one for each table, or one for a refusal.
pub fn listing(heap: Global, font: &[u8]) -> Result<String, AllocError>
    ensures { IfOk result (λ s. string_bytes s ≡ listing_of font.now) }
{
    listing_text(heap, font)
}

// The same text; its proof has an answer, so that edits of `listing` are refused at its contract.
fn listing_text(heap: Global, font: &[u8]) -> Result<String, AllocError>
    ensures { IfOk result (λ s. string_bytes s ≡ listing_of font.now) }
{
    match read_directory(font) {
        Ok(directory) => directory.to_string(heap),
        Err(e) => refusal_line(heap, e),
    }
}

// The line of the table whose tag is given as text, `none`, or a line for a refusal.
pub fn table_named(heap: Global, font: &[u8], text: &[u8]) -> Result<String, AllocError>
    ensures { IfOk result (λ s. string_bytes s ≡ named_of (slice font.entry) text.now) }
{
    match read_directory(font) {
        Ok(directory) => line_for(heap, table_tagged(&directory, text)),
        Err(e) => refusal_line(heap, e),
    }
}

// What a directory says of the table whose tag is given as text.
fn table_tagged(directory: &Directory<'_>, text: &[u8]) -> Option<TableRecord>
    ensures value { result ≡ table_tagged_in (array directory.now.records) (tag_number text.now) }
{
    let tag = tag_from_text(text)?;
    let i = directory.find(tag)?;
    directory.table(i)
}

// The line of a table, or `none`.
fn line_for(heap: Global, table: Option<TableRecord>) -> Result<String, AllocError>
    ensures { IfOk result (λ s. string_bytes s ≡ line_for_found table) }
{
    match table {
        Some(table) => format!(in heap; "{table}\n"),
        None => format!(in heap; "none\n"),
    }
}

// The line of a refusal. (A refusal displays as its word alone.)
fn refusal_line(heap: Global, e: Refusal) -> Result<String, AllocError>
    ensures { IfOk result (λ s. string_bytes s ≡ refusal_line_of e) }
{
    format!(in heap; "refused {e} {}\n", e.number())
}

// The lines of the header and of all tables.
impl fmt::Display for Directory<'_> {
    ghost output = { λ d. Some (directory_text_of d.header (array d.records)) };

    #[tactic(auto, using(std::proofs::lemmas::Grind::put_two, crate::proofs::Records::lines_more))]
    fn fmt<W: fmt::Write>(&self, f: &mut fmt::Formatter<W>) -> fmt::Result {
        writeln!(f, "{}", self.header())?;
        for table in self.tables() {
            writeln!(f, "{table}")?;
        }
        Ok(())
    }
}

// The version and the number of tables.
impl fmt::Display for Header {
    ghost output = { λ h. Some (header_text_of h) };

    #[tactic(auto, using(crate::proofs::Numbers::eight_digits))]
    fn fmt<W: fmt::Write>(&self, f: &mut fmt::Formatter<W>) -> fmt::Result {
        let Header { version, count } = *self;
        write!(f, "0x{version:08x} {count} tables")
    }
}

// The tag as text, the checksum, the offset and the length.
impl fmt::Display for TableRecord {
    ghost output = { λ t. Some (table_text_of t) };

    #[tactic(auto, using(crate::proofs::Numbers::eight_digits))]
    fn fmt<W: fmt::Write>(&self, f: &mut fmt::Formatter<W>) -> fmt::Result {
        let TableRecord {
            tag,
            checksum,
            offset,
            length,
        } = *self;
        let tag = Tag(tag);
        write!(f, "{tag} {checksum:08x} {offset} {length}")
    }
}
