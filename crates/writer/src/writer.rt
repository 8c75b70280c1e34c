use context::WriteContext;
use register::Register;
use std::marker::Model;

mod adding;
mod filling;
mod finishing;
mod taking;

// A place that was taken and waits to be filled. It cannot be let go: a fill or an abandon spends it,
// even a refused one.
pub struct Placeholder {
    number: usize,
    length: usize,
}

// Places taken together, which follow one another. Anyone may make one up: the register judges.
#[derive(Clone, Copy, PartialEq, Eq, Debug)]
pub struct Run {
    pub first: usize,
    pub count: usize,
}

// A context to write to, and the register of the places taken in it.
#[derive(Drop)]
pub struct Writer<C: WriteContext> {
    context: C,
    register: Register,
}

// A writer is seen as the state that steps and runs speak of: its context, and the rows of the places taken.
impl<C: WriteContext> Model for Writer<C> {
    ghost use Rattle.std.specs.Prelude.{◌≤◌, length};
    ghost use Rattle.register.specs.Rows.{capacity};
    ghost use Rattle.runs.specs.Steps.{Held};

    ghost Value = { Held C };

    ghost view = { λ w. record { context = w.context; rows = w.register } };

    ghost invariant = { λ w. length w.register ≤ capacity };
}
