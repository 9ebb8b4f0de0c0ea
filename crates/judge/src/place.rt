// Where a rule is broken first.

// A unit and a period, which count from 1; unit 0 where no unit applies.
#[derive(Clone, Copy)]
pub struct Place {
    pub unit: usize,
    pub period: usize,
}
