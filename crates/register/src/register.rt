use std::marker::Model;

mod rows;

// What became of a place: it waits to be filled, holds what it was filled with, or was given up.
#[derive(Clone, Copy, PartialEq, Eq, Debug)]
pub enum State {
    Open,
    Filled,
    Spoiled,
}

// What happens to a place: it is filled, a fill is refused, or it is abandoned. (It is matched together with the
// state, and picks no step to run.)
#[derive(Clone, Copy, PartialEq, Eq, Debug)]
pub enum Event {
    Fill,
    Refuse,
    Abandon,
}

// A place: where its bytes begin, how many there are, and what became of it.
#[derive(Clone, Copy, PartialEq, Eq, Debug)]
pub struct Row {
    pub offset: usize,
    pub length: usize,
    pub state: State,
}

// Places that follow one another: where the first begins, how long each is, and how many there are.
#[derive(Clone, Copy, PartialEq, Eq, Debug)]
pub struct Places {
    pub offset: usize,
    pub length: usize,
    pub count: usize,
}

// How many places were taken, and how many of them are filled, spoiled and open.
#[derive(Clone, Copy, PartialEq, Eq, Debug)]
pub struct Tally {
    pub taken: usize,
    pub filled: usize,
    pub spoiled: usize,
    pub open: usize,
}

// The places of a writer, by number. 256 may be taken. (The rows are a plain array, of which one row is lent and
// changed in place: the device has no heap, and this form is a rule of the project.)
#[derive(Drop)]
pub struct Register {
    rows: [Row; 256],
    taken: usize,
}

// A register is seen as the list of the rows taken; a place's number is its index there.
impl Model for Register {
    ghost use Rattle.std.specs.Prelude.{◌≡◌, ◌≤◌, List, length, take};
    ghost use Rattle.register.specs.declared.register.Row.{Row};

    ghost Value = { List Row };

    ghost view = { λ g. take g.taken g.rows };

    ghost invariant = { λ g. (g.taken ≤ 256) × (length g.rows ≡ 256) };
}
