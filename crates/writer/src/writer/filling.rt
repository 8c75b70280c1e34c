ghost use Rattle.std.specs.Prelude.{◌≡◌, ◌+◌, not, [], ◌∷◌, MatchResult};
ghost use Rattle.refusals.specs.declared.refusal.Refusal.TheVariants.{NoPlace};
ghost use Rattle.refusals.specs.Answers.{told, due, judged};
ghost use Rattle.read.specs.Scopes.{view};
ghost use Rattle.register.specs.declared.register.Event.TheVariants.{Fill, Refuse};
ghost use Rattle.register.specs.Rows.{row, struck};
ghost use Rattle.runs.specs.Calls.{item, token, fills, fills_dep, abandons};
ghost use Rattle.runs.specs.Law.{Shown};
ghost use Rattle.runs.specs.Steps.{target_dues, open_of_length};
ghost use Rattle.writer.specs.Holding.{Few, done, by_token, by_run};

use super::{Placeholder, Run, Writer};
use context::{WriteContext, write_value_at};
use kinds::Kind;
use read::ReadScope;
use refusals::Refusal;
use register::{Event, Row};

impl Placeholder {
    // The number of the place, for which the token is given up.
    fn spend(self) -> usize
        ensures value { result ≡ self.number }
    {
        let Placeholder { number, length: _ } = self;
        number
    }
}

impl Run {
    // The number of the place of index `index`. (It judges the index: no conversion.)
    fn number(self, index: usize) -> Result<usize, Refusal>
        ensures answer { told (λ n. n) result ≡ judged (target_dues (by_run self index)) (self.first + index) }
    {
        if index >= self.count {
            return Err(Refusal::BadIndex);
        }
        self.first
            .checked_add(index)
            .filter(|number| *number <= 255)
            .ok_or(Refusal::NoPlace)
    }
}

impl<C: WriteContext> Writer<C> {
    // Fills the place with the bytes of a kind's value.
    pub fn write_placeholder<K: Kind>(
        &mut self,
        placeholder: Placeholder,
        v: K::HostType,
    ) -> Result<(), Refusal>
        ensures shown { Shown C.WriteContext.means self.old (fills (by_token placeholder) (item K.Kind K.HostType.row.coded v)) (done result) self.new }
        ensures code { (u w : K.HostType) → K.HostType.row.coded.code u ≡ K.HostType.row.coded.code w → u ≡ w }
        ensures few { Few self.old self.new }
    {
        self.fill::<K>(placeholder.spend(), v)
    }

    // Fills the place of that index in a run with the bytes of a kind's value.
    pub fn write_placeholder_item<K: Kind>(
        &mut self,
        run: Run,
        index: usize,
        v: K::HostType,
    ) -> Result<(), Refusal>
        ensures shown { Shown C.WriteContext.means self.old (fills (by_run run index) (item K.Kind K.HostType.row.coded v)) (done result) self.new }
        ensures code { (u w : K.HostType) → K.HostType.row.coded.code u ≡ K.HostType.row.coded.code w → u ≡ w }
        ensures few { Few self.old self.new }
    {
        // At the register the check learns the writer's invariant, which holds on a refusal of the index too.
        let _ = &self.register;
        self.fill::<K>(run.number(index)?, v)
    }

    // Fills the place of that number.
    fn fill<K: Kind>(&mut self, number: usize, v: K::HostType) -> Result<(), Refusal>
        ensures shown { Shown C.WriteContext.means self.old (fills (token number 0) (item K.Kind K.HostType.row.coded v)) (done result) self.new }
        ensures few { Few self.old self.new }
    {
        let row = self.open_row(number, K::size())?;
        let answer = write_value_at::<K, C>(&mut self.context, row.offset, v);
        self.settle(number, answer)
    }

    // Fills the place with a scope's bytes, which go to its start; zeros stay behind them.
    pub fn write_placeholder_dep(
        &mut self,
        placeholder: Placeholder,
        scope: ReadScope<'_>,
    ) -> Result<(), Refusal>
        ensures shown { Shown C.WriteContext.means self.old (fills_dep placeholder.number placeholder.length (view scope.entry).slice.bytes) (done result) self.new }
        ensures few { Few self.old self.new }
    {
        let Placeholder { number, length } = placeholder;
        let row = self.open_row(number, length)?;
        let data = scope.data();
        let answer = if data.len() > length {
            Err(Refusal::PlaceholderMismatch)
        } else {
            self.context.write_at(row.offset, data)
        };
        self.settle(number, answer)
    }

    // Gives the place up.
    pub fn abandon(&mut self, placeholder: Placeholder) -> Result<(), Refusal>
        ensures shown { Shown C.WriteContext.means self.old (abandons (by_token placeholder)) (done result) self.new }
        ensures few { Few self.old self.new }
    {
        self.spoil(placeholder.spend())
    }

    // Gives the place of that index in a run up.
    pub fn abandon_item(&mut self, run: Run, index: usize) -> Result<(), Refusal>
        ensures shown { Shown C.WriteContext.means self.old (abandons (by_run run index)) (done result) self.new }
        ensures few { Few self.old self.new }
    {
        let _ = &self.register;
        self.spoil(run.number(index)?)
    }

    // Gives the place of that number up.
    fn spoil(&mut self, number: usize) -> Result<(), Refusal>
        ensures shown { Shown C.WriteContext.means self.old (abandons (token number 0)) (done result) self.new }
        ensures few { Few self.old self.new }
    {
        self.register.open_at(number).ok_or(Refusal::NoPlace)?;
        self.register.mark(number, Event::Abandon);
        Ok(())
    }

    // The row of the place of that number, if it is open and that long.
    fn open_row(&self, number: usize, length: usize) -> Result<Row, Refusal>
        ensures answer { told (λ r. r) result ≡ judged (due NoPlace (not (open_of_length self.now.rows number «length»)) ∷ []) (row self.now.rows number) }
    {
        self.register
            .open_at(number)
            .filter(|row| row.length == length)
            .ok_or(Refusal::NoPlace)
    }

    // Marks the place as a fill so answered leaves it, filled or spoiled, and hands the answer on.
    fn settle(&mut self, number: usize, answer: Result<(), Refusal>) -> Result<(), Refusal>
        ensures same { result ≡ answer }
        ensures context { self.new.context ≡ self.old.context }
        ensures rows { MatchResult answer (λ _. self.new.rows ≡ struck Fill self.old.rows number) (λ _. self.new.rows ≡ struck Refuse self.old.rows number) }
        ensures few { Few self.old self.new }
    {
        let event = match answer {
            Ok(()) => Event::Fill,
            Err(_) => Event::Refuse,
        };
        self.register.mark(number, event);
        answer
    }
}
