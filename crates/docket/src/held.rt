// What is held: a cost and a bound, each with its writer.

// A held cost and its writer.
#[derive(Clone, Copy)]
pub struct CostBy {
    pub cost: u64,
    pub writer: u64,
}

// A held number and its writer.
#[derive(Clone, Copy)]
pub struct BoundBy {
    pub value: i64,
    pub writer: u64,
}

// The writer of a held `never`.
#[derive(Clone, Copy)]
pub struct NeverBy {
    pub writer: u64,
}

// None, a number or never, with its writer.
// An enum over structs, the form that document 01 names for what is held.
#[derive(Clone, Copy)]
pub enum HeldBound {
    Nothing,
    Number(BoundBy),
    Never(NeverBy),
}

// The held cost, if one is, and the held bound.
#[derive(Clone, Copy)]
pub struct Held {
    pub cost: Option<CostBy>,
    pub bound: HeldBound,
}

// What is held where nothing was accepted yet.
pub(crate) const NOTHING_HELD: Held = Held {
    cost: None,
    bound: HeldBound::Nothing,
};
