// The roles of a concept, with the most steps that each may have and the set of marks that it allows.
ghost use Rattle.std.specs.Prelude.{ℕ};
ghost use Rattle.records.specs.Layout.{query_steps, view_steps, query_marks, no_marks};

pub trait Role {
    const STEPS: usize;

    const MARKS: u32;

    ghost STEPS: { ℕ };

    ghost MARKS: { ℕ };
}

// What is selected, or has its links counted.
#[derive(Clone, Copy)]
pub struct Plain;

impl Role for Plain {
    const STEPS: usize = 16;

    const MARKS: u32 = 0;

    ghost STEPS = { query_steps };

    ghost MARKS = { no_marks };
}

// What is decided on, or has a counterexample.
#[derive(Clone, Copy)]
pub struct Query;

impl Role for Query {
    const STEPS: usize = 16;

    const MARKS: u32 = 15;

    ghost STEPS = { query_steps };

    ghost MARKS = { query_marks };
}

#[derive(Clone, Copy)]
pub struct View;

impl Role for View {
    const STEPS: usize = 6;

    // None, as in a plain query.
    const MARKS: u32 = Plain::MARKS;

    ghost STEPS = { view_steps };

    ghost MARKS = { no_marks };
}
