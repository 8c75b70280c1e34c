ghost use Rattle.std.specs.Prelude.{◌≡◌, ◌-◌, ◌<◌, [], ◌∷◌, length as many, IfOk, Some, nat_lt};
ghost use Rattle.std.specs.Iterator.{at_most};
ghost use Rattle.refusals.specs.declared.refusal.Refusal.TheVariants.{BadEof};
ghost use Rattle.refusals.specs.Answers.{told, due, judged};
ghost use Rattle.read.specs.Scopes.{slice};
ghost use Rattle.arrays.specs.Arrays.{array, Whole};
ghost use Rattle.directory.specs.Tags.{tag_search, Ascending, TagFound};
ghost use Rattle.directory.specs.Tables.{header, extent, records, table_at, table_in, TableGiven};

use arrays::{ReadArray, read_array};
use read::ReadScope;
use refusals::Refusal;
use scalars::{U16Be, U32Be};
use search::{FirstNumber, binary_search_by};

// The header of a table directory.
#[derive(Clone, Copy)]
pub struct Header {
    pub version: u32,
    pub count: u16,
}

// What the directory says of one table.
#[derive(Clone, Copy)]
pub struct TableRecord {
    pub tag: u32,
    pub checksum: u32,
    pub offset: u32,
    pub length: u32,
}

// A table directory: its header, and its records in the font's own bytes.
#[derive(Drop)]
pub struct Directory<'a> {
    header: Header,
    records: ReadArray<'a, (U32Be, U32Be, U32Be, U32Be)>,
    ghost whole: { Whole 16 (array records) },
}

// The font's directory, or BadEof if the header or a record is cut.
pub fn read_directory(font: &[u8]) -> Result<Directory<'_>, Refusal>
    ensures header { told (λ d. d.header) result ≡ judged (due BadEof (nat_lt (many font.now) (extent font.now)) ∷ []) (header font.now) }
    ensures records { IfOk result (λ d. array d.records ≡ records (slice font.entry)) }
    ensures whole { IfOk result (λ d. Whole 16 (array d.records)) }
{
    let mut ctxt = ReadScope::new(font).ctxt();
    let (version, count) = ctxt.read::<(U32Be, U16Be)>()?;
    let _ = ctxt.read::<(U16Be, U16Be, U16Be)>()?;
    let records = read_array(&mut ctxt, usize::from(count))?;
    Ok(Directory {
        header: Header { version, count },
        records,
    })
}

impl Directory<'_> {
    // The directory's header.
    pub fn header(&self) -> Header
        ensures value { result ≡ self.now.header }
    {
        self.header
    }

    // How many tables there are.
    pub fn len(&self) -> usize
        ensures value { result ≡ (array self.now.records).count }
    {
        self.records.len()
    }

    // The record of table `i`, or none past the last.
    pub fn table(&self, i: usize) -> Option<TableRecord>
        ensures value { result ≡ table_at (array self.now.records) i }
        ensures whole { i < (array self.now.records).count → result ≡ Some (table_in (array self.now.records) i) }
    {
        self.records.get_item(i).map(|(tag, checksum, offset, length)| TableRecord {
            tag,
            checksum,
            offset,
            length,
        })
    }

    // The tables, in order.
    pub(crate) fn tables(&self) -> Tables<'_>
        ensures directory { result.directory.now ≡ self.now }
        ensures first { result.index ≡ 0 }
    {
        Tables {
            directory: self,
            index: 0,
        }
    }

    // The number of a table with that tag, by a search among tags that ascend.
    pub fn find(&self, tag: u32) -> Option<usize>
        ensures value { result ≡ tag_search (array self.now.records) tag }
        ensures found { Ascending (array self.now.records) → TagFound (array self.now.records) tag result }
    {
        let probe = FirstNumber::<U32Be>::new(tag);
        binary_search_by(&self.records, &probe).ok()
    }
}

// The tables of a directory from the one at `index` on. (Tried over the array's own iterator: the check did not
// prove the invariant of the loop that prints the tables.)
#[derive(Drop)]
pub(crate) struct Tables<'a> {
    directory: &'a Directory<'a>,
    index: usize,
}

// The tables one after the other.
impl Iterator for Tables<'_> {
    type Item = TableRecord;

    ghost next_gives = { λ s r t. TableGiven (array s.directory.now.records) s.index r t.index × (t.directory ≡ s.directory) };

    ghost remaining = { λ s. at_most ((array s.directory.now.records).count - s.index) };

    // The next table.
    fn next(&mut self) -> Option<TableRecord> {
        if self.index >= self.directory.len() {
            return None;
        }
        let table = self.directory.table(self.index);
        self.index += 1;
        table
    }
}
