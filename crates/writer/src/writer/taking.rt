ghost use Rattle.runs.specs.Calls.{placeholder, placeholder_array, reserve, takes};
ghost use Rattle.runs.specs.Law.{Shown};
ghost use Rattle.writer.specs.Holding.{Few, one_place, one_run};

use super::{Placeholder, Run, Writer};
use context::WriteContext;
use kinds::Kind;
use refusals::Refusal;
use register::Places;

impl<C: WriteContext> Writer<C> {
    // Takes a place as long as a kind's values, of zeros.
    pub fn placeholder<K: Kind>(&mut self) -> Result<Placeholder, Refusal>
        ensures shown { Shown C.WriteContext.means self.old (takes (placeholder K.Kind.width)) (one_place result) self.new }
        ensures few { Few self.old self.new }
    {
        self.reserve(K::size())
    }

    // Takes `count` places as long as a kind's values, one right after the other.
    pub fn placeholder_array<K: Kind>(&mut self, count: usize) -> Result<Run, Refusal>
        ensures shown { Shown C.WriteContext.means self.old (takes (placeholder_array K.Kind.width count)) (one_run result) self.new }
        ensures few { Few self.old self.new }
    {
        self.take(K::size(), count)
    }

    // Takes a place of `count` zeros.
    pub fn reserve(&mut self, count: usize) -> Result<Placeholder, Refusal>
        ensures shown { Shown C.WriteContext.means self.old (takes (reserve count)) (one_place result) self.new }
        ensures few { Few self.old self.new }
    {
        let run = self.take(count, 1)?;
        Ok(Placeholder {
            number: run.first,
            length: count,
        })
    }

    // Takes `count` places of `length` bytes each, one right after the other.
    fn take(&mut self, length: usize, count: usize) -> Result<Run, Refusal>
        ensures shown { Shown C.WriteContext.means self.old (takes (placeholder_array «length» count)) (one_run result) self.new }
        ensures few { Few self.old self.new }
    {
        let _ = &self.register;
        let size = count.checked_mul(length).ok_or(Refusal::Overflow)?;
        if self.register.lacks(count) {
            return Err(Refusal::RegisterFull);
        }
        let offset = self.context.bytes_written();
        self.context.write_zeros(size)?;
        let first = self.register.add(Places {
            offset,
            length,
            count,
        });
        Ok(Run { first, count })
    }
}
