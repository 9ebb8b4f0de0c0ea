// A generator, and the ranges of its numbers.
ghost use Rattle.std.specs.Prelude.{◌≡◌};
ghost use Rattle.model.specs.Ranges.{costs_in_range, outputs_in_range, times_in_range, in_range, midnight_ordered, ordered, good_generator};
ghost use Rattle.model.specs.Held.{blank_generator};

// Document 01's unit, with the source's names for its numbers. Tini is on and since: before period 1 the generator has
// been on, or off, for since periods. p0 is its output at midnight (document 02, [3]).
#[derive(Clone, Copy)]
pub struct Generator {
    pub a: u64,
    pub b: u64,
    pub c: u64,
    pub pL: u64,
    pub pU: u64,
    pub TU: usize,
    pub TD: usize,
    pub on: bool,
    pub since: usize,
    pub DR: u64,
    pub UR: u64,
    pub Hsc: u64,
    pub Csc: u64,
    pub Tcold: usize,
    pub Dc: u64,
    pub p0: u64,
}

impl Generator {
    // MOST_COST is for a, Hsc, Csc and Dc; LEAST_OUTPUT and MOST_OUTPUT are for pL, pU, DR and UR, and MOST_OUTPUT
    // is p0's too; the times are TU and TD, and MOST_TIME is Tcold's too.
    pub const MOST_COST: u64 = 1_000_000_000;

    pub const MOST_B: u64 = 10_000_000;

    pub const MOST_C: u64 = 10_000;

    pub const LEAST_OUTPUT: u64 = 1;

    pub const MOST_OUTPUT: u64 = 10_000;

    pub const LEAST_TIME: u64 = 1;

    pub const MOST_TIME: u64 = 48;

    pub const LEAST_SINCE: u64 = 1;

    pub const MOST_SINCE: u64 = 1_000;

    // The generator whose every number is 0.
    pub fn blank() -> Generator
        ensures { result ≡ blank_generator }
    {
        Generator {
            a: 0,
            b: 0,
            c: 0,
            pL: 0,
            pU: 0,
            TU: 0,
            TD: 0,
            on: false,
            since: 0,
            DR: 0,
            UR: 0,
            Hsc: 0,
            Csc: 0,
            Tcold: 0,
            Dc: 0,
            p0: 0,
        }
    }

    // Whether every number is in its range (13).
    #[tactic(auto, unfolding(crate::specs::Ranges::in_range))]
    pub fn in_range(self) -> bool
        ensures { result ≡ in_range self }
    {
        self.has_costs_in_range() && self.has_outputs_in_range() && self.has_times_in_range()
    }

    // Whether a, b, c, Hsc, Csc and Dc are in range.
    #[tactic(auto, unfolding(crate::specs::Ranges::costs_in_range))]
    fn has_costs_in_range(self) -> bool
        ensures { result ≡ costs_in_range self }
    {
        self.a <= Self::MOST_COST
            && self.b <= Self::MOST_B
            && self.c <= Self::MOST_C
            && self.Hsc <= Self::MOST_COST
            && self.Csc <= Self::MOST_COST
            && self.Dc <= Self::MOST_COST
    }

    // Whether pL, pU, DR, UR and p0 are in range.
    #[tactic(auto, unfolding(crate::specs::Ranges::outputs_in_range))]
    fn has_outputs_in_range(self) -> bool
        ensures { result ≡ outputs_in_range self }
    {
        let outputs = Self::LEAST_OUTPUT..=Self::MOST_OUTPUT;
        outputs.contains(&self.pL)
            && outputs.contains(&self.pU)
            && outputs.contains(&self.DR)
            && outputs.contains(&self.UR)
            && self.p0 <= Self::MOST_OUTPUT
    }

    // Whether TU, TD, Tini and Tcold are in range.
    #[tactic(auto, unfolding(crate::specs::Ranges::times_in_range))]
    fn has_times_in_range(self) -> bool
        ensures { result ≡ times_in_range self }
    {
        let times = Self::LEAST_TIME..=Self::MOST_TIME;
        times.contains(&(self.TU as u64))
            && times.contains(&(self.TD as u64))
            && (Self::LEAST_SINCE..=Self::MOST_SINCE).contains(&(self.since as u64))
            && self.Tcold as u64 <= Self::MOST_TIME
    }

    // Whether pL is at most pU, Hsc at most Csc, and p0 as Tini has it (15).
    #[tactic(auto, unfolding(crate::specs::Ranges::ordered))]
    pub fn is_ordered(self) -> bool
        ensures { result ≡ ordered self }
    {
        self.pL <= self.pU && self.Hsc <= self.Csc && self.has_midnight()
    }

    // Whether p0 is from pL to pU after periods on, and 0 after periods off.
    #[tactic(auto, unfolding(crate::specs::Ranges::midnight_ordered))]
    fn has_midnight(self) -> bool
        ensures { result ≡ midnight_ordered self }
    {
        if self.on {
            (self.pL..=self.pU).contains(&self.p0)
        } else {
            self.p0 == 0
        }
    }

    // Whether neither 13 nor 15 refuses the generator's line.
    pub fn is_good(self) -> bool
        ensures { result ≡ good_generator self }
    {
        self.in_range() && self.is_ordered()
    }
}
