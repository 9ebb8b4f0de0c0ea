// Refusals: a number, and the place that the number carries.
#![tactic(auto)]

ghost use Rattle.std.specs.Prelude.{◌≡◌};
ghost use Rattle.refusal.specs.Refusals.{refusal_of};

// A refusal. What does not apply to its number is 0.
#[derive(Clone, Copy)]
pub struct Refusal {
    pub number: u64,
    pub line: usize,
    pub unit: usize,
    pub period: usize,
}

// The refusal of this number, with as much of the place as the number carries.
// Rules are told by number and not by an enum: both papers name them so, and the edits sixteen_has_a_line and after_ramp_has_a_unit ask of numbers that no rule has.
pub fn refuse(number: u64, line: usize, unit: usize, period: usize) -> Refusal
    ensures { result ≡ refusal_of number line unit period }
{
    match number {
        11..=15 | 31..=37 => Refusal {
            number,
            line,
            unit: 0,
            period: 0,
        },
        22..=23 => Refusal {
            number,
            line: 0,
            unit: 0,
            period,
        },
        21..=25 => Refusal {
            number,
            line: 0,
            unit,
            period,
        },
        _ => Refusal {
            number,
            line: 0,
            unit: 0,
            period: 0,
        },
    }
}
