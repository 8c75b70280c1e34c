ghost use Rattle.std.specs.Prelude.{◌≡◌, ◌+◌, ◌*◌, ◌<◌, ◌≤◌, [], ◌∷◌, ◌++◌, length as many, nat_le};
ghost use Rattle.opentype.specs.Alignment.{largest};
ghost use Rattle.register.specs.Rows.{capacity, opened, stepped, lacking, open_at, struck, in_a_row, added, tallied, one_more};

use super::{Event, Places, Register, Row, State, Tally};

impl Row {
    // What the event makes of the row: only an open one changes.
    fn step(&mut self, event: Event)
        ensures after { self.new ≡ stepped event self.old }
    {
        match (self.state, event) {
            (State::Open, Event::Fill) => self.state = State::Filled,
            (State::Open, Event::Refuse | Event::Abandon) => self.state = State::Spoiled,
            (State::Filled | State::Spoiled, _) => {}
        }
    }
}

impl Places {
    // Whether the places end within the largest usize.
    fn fit(self) -> bool
        ensures value { result ≡ nat_le (self.offset + self.count * self.length) largest }
    {
        self.count
            .checked_mul(self.length)
            .is_some_and(|size| size <= usize::MAX - self.offset)
    }

    // The row of the place of that index, which is open.
    fn row(self, index: usize) -> Row
        requires there { index < self.count }
        requires fit { self.offset + self.count * self.length ≤ largest }
        ensures value { result ≡ opened (self.offset + index * self.length) self.length }
    {
        Row {
            offset: self.offset + index * self.length,
            length: self.length,
            state: State::Open,
        }
    }
}

impl Register {
    // A register of which no place was taken.
    pub fn new() -> Register
        ensures value { result ≡ [] }
    {
        let row = Row {
            offset: 0,
            length: 0,
            state: State::Spoiled,
        };
        Register {
            rows: [row; 256],
            taken: 0,
        }
    }

    // The rows taken. At most 256 are, which is an invariant of the type; a clause says it to callers.
    fn listed(&self) -> &[Row]
        ensures value { result.now ≡ self.now }
        ensures few { many self.now ≤ capacity }
    {
        &self.rows[..self.taken]
    }

    // Whether `count` places more would be too many.
    pub fn lacks(&self, count: usize) -> bool
        ensures value { result ≡ lacking self.now count }
        ensures few { many self.now ≤ capacity }
    {
        count > 256 - self.taken
    }

    // The row of that number, if it is open.
    pub fn open_at(&self, number: usize) -> Option<Row>
        ensures value { result ≡ open_at self.now number }
        ensures few { many self.now ≤ capacity }
    {
        self.listed()
            .get(number)
            .copied()
            .filter(|row| row.state == State::Open)
    }

    // What the event makes of the row of that number; if there is none, nothing.
    #[tactic(auto, using(crate::proofs::Listed::front))]
    pub fn mark(&mut self, number: usize, event: Event)
        ensures after { self.new ≡ struck event self.old number }
        ensures few { (many self.old ≤ capacity) × (many self.new ≤ capacity) }
    {
        if number < self.taken {
            self.rows[number].step(event);
        }
    }

    // Opens the places, and answers the number of the first; nothing if that is too many, or past the
    // largest usize.
    pub fn add(&mut self, places: Places) -> usize
        ensures value { result ≡ many self.old }
        ensures after { self.new ≡ added self.old places.offset places.length places.count }
        ensures few { (many self.old ≤ capacity) × (many self.new ≤ capacity) }
    {
        let first = self.taken;
        if !self.lacks(places.count) && places.fit() {
            self.add_all(places);
        }
        first
    }

    // The same, where there is room.
    #[tactic(auto, using(crate::proofs::Listed::joined))]
    fn add_all(&mut self, places: Places)
        requires room { many self.old + places.count ≤ capacity }
        requires fit { places.offset + places.count * places.length ≤ largest }
        ensures after { self.new ≡ self.old ++ in_a_row places.offset places.length places.count }
        ensures few { many self.new ≤ capacity }
    {
        // The index is a place's own: where its bytes begin follows from it, and no slice is indexed by it.
        for i in 0..places.count {
            self.push(places.row(i));
        }
    }

    // One row more, where there is room.
    fn push(&mut self, row: Row)
        requires room { many self.old < capacity }
        ensures after { self.new ≡ self.old ++ row ∷ [] }
    {
        self.rows[self.taken] = row;
        self.taken += 1;
    }

    // How many places were taken, and how many are filled, spoiled and open.
    pub fn tally(&self) -> Tally
        ensures value { result ≡ tallied self.now }
        ensures few { many self.now ≤ capacity }
    {
        count(self.listed())
    }
}

impl Tally {
    // One place more, in that state.
    fn with(self, state: State) -> Tally
        requires few { self.taken < capacity }
        requires balance { self.taken ≡ self.filled + (self.spoiled + self.«open») }
        ensures value { result ≡ one_more self state }
    {
        let taken = self.taken + 1;
        match state {
            State::Open => Tally {
                taken,
                open: self.open + 1,
                ..self
            },
            State::Filled => Tally {
                taken,
                filled: self.filled + 1,
                ..self
            },
            State::Spoiled => Tally {
                taken,
                spoiled: self.spoiled + 1,
                ..self
            },
        }
    }
}

// The tally of the rows, in one pass: three, by `filter` and `count`, took more than twice as long.
#[tactic(auto, using(crate::proofs::Counting::tallied_more, crate::proofs::Counting::state_count_all))]
fn count(rows: &[Row]) -> Tally
    requires few { many rows.now ≤ capacity }
    ensures value { result ≡ tallied rows.now }
{
    let mut tally = Tally {
        taken: 0,
        filled: 0,
        spoiled: 0,
        open: 0,
    };
    for row in rows {
        tally = tally.with(row.state);
    }
    tally
}
