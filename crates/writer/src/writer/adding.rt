ghost use Rattle.std.specs.Prelude.{◌≡◌, ◌≤◌, [], length as many};
ghost use Rattle.register.specs.Rows.{capacity};
ghost use Rattle.runs.specs.Calls.{item, value, bytes, zeros, adds};
ghost use Rattle.runs.specs.Law.{Shown};
ghost use Rattle.writer.specs.Holding.{Few, done};

use super::Writer;
use context::{WriteContext, write};
use kinds::Kind;
use refusals::Refusal;
use register::Register;

impl<C: WriteContext> Writer<C> {
    // A writer on a context, with no place taken. What the context has written already stays.
    pub fn new(context: C) -> Writer<C>
        ensures context { result.context ≡ context }
        ensures rows { result.rows ≡ [] }
    {
        Writer {
            context,
            register: Register::new(),
        }
    }

    // Takes the writer apart, and gives its context back.
    pub fn into_inner(self) -> C
        ensures value { result ≡ self.context }
        ensures few { many self.rows ≤ capacity }
    {
        let Writer { context, register } = self;
        drop(register);
        context
    }

    // Joins on the bytes of a kind's value. (The clause `code` here and at the two fills speaks of the type of the
    // value alone, and holds of every type: it has no value to be kept in.)
    pub fn write<K: Kind>(&mut self, v: K::HostType) -> Result<(), Refusal>
        ensures shown { Shown C.WriteContext.means self.old (adds (value (item K.Kind K.HostType.row.coded v))) (done result) self.new }
        ensures code { (u w : K.HostType) → K.HostType.row.coded.code u ≡ K.HostType.row.coded.code w → u ≡ w }
        ensures few { Few self.old self.new }
    {
        write::<K, C>(&mut self.context, v)
    }

    // Joins on bytes.
    pub fn write_bytes(&mut self, data: &[u8]) -> Result<(), Refusal>
        ensures shown { Shown C.WriteContext.means self.old (adds (bytes «data».now)) (done result) self.new }
        ensures few { Few self.old self.new }
    {
        self.context.write_bytes(data)
    }

    // Joins on so many zeros.
    pub fn write_zeros(&mut self, count: usize) -> Result<(), Refusal>
        ensures shown { Shown C.WriteContext.means self.old (adds (zeros count)) (done result) self.new }
        ensures few { Few self.old self.new }
    {
        self.context.write_zeros(count)
    }
}
