ghost use Rattle.std.specs.Prelude.{◌≤◌, length as many};
ghost use Rattle.register.specs.Rows.{capacity};
ghost use Rattle.runs.specs.Calls.{finishes};
ghost use Rattle.runs.specs.Law.{Shown};
ghost use Rattle.writer.specs.Holding.{length_written};

use super::Writer;
use context::WriteContext;
use refusals::Refusal;

impl<C: WriteContext> Writer<C> {
    // How many bytes were written, if every place is filled. At most 256 places were taken, by the register's type.
    pub fn finish(&self) -> Result<usize, Refusal>
        ensures shown { Shown C.WriteContext.means self.now finishes (length_written result) self.now }
        ensures few { many self.now.rows ≤ capacity }
    {
        let tally = self.register.tally();
        if tally.filled == tally.taken {
            Ok(self.context.bytes_written())
        } else {
            Err(Refusal::Unfilled)
        }
    }
}
