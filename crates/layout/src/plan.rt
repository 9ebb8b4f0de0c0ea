// A problem's numbers, laid out and lent: what is read from them.
ghost use Rattle.std.specs.Prelude.{◌≡◌, ◌<◌, length, get_or};
ghost use Rattle.model.specs.Instance.{◌at◌};
ghost use Rattle.model.specs.Held.{blank_generator};
ghost use Rattle.layout.specs.Ranks.{pU_of, place_of, ranked};
ghost use Rattle.layout.specs.Numbers.{Laid};
ghost use Rattle.layout.specs.OneProof.{Laid-prop};

use crate::generator_of;
use model::unit::Unit;

// The numbers of a well-formed problem, with the pU and the places of its units behind them.
#[derive(Clone, Copy)]
pub struct Plan<'a> {
    pub numbers: &'a [u64],
    pub ghost laid: { Laid numbers.now } by { Laid-prop numbers.now },
}

impl<'a> Plan<'a> {
    ghost use Rattle.layout.specs.Plans.{instance_of};

    // The plan of these numbers.
    pub fn of(numbers: &'a [u64]) -> Plan<'a>
        requires { Laid numbers.now }
        ensures { result.numbers.now ≡ numbers.now }
    {
        Plan { numbers }
    }

    // The periods.
    pub fn periods(self) -> usize
        ensures { result ≡ (instance_of self.entry).periods }
    {
        self.numbers[0] as usize
    }

    // The number of units.
    pub fn units(self) -> usize
        ensures { result ≡ length (instance_of self.entry).units }
    {
        self.numbers[1] as usize
    }

    // The demand of period t.
    pub fn demand(self, t: usize) -> u64
        requires { t < (instance_of self).periods }
        ensures { result ≡ (instance_of self.entry).demand at t }
    {
        self.numbers[2 + t]
    }

    // The spare of period t.
    pub fn spare(self, t: usize) -> u64
        requires { t < (instance_of self).periods }
        ensures { result ≡ (instance_of self.entry).spare at t }
    {
        self.numbers[50 + t]
    }

    // The pU of unit u.
    pub fn pU(self, u: usize) -> u64
        requires { u < length (instance_of self).units }
        ensures { result ≡ (get_or (instance_of self.entry).units u blank_generator).pU }
    {
        self.numbers[98 + u * 16 + 4]
    }

    // Unit u.
    pub fn unit(self, u: usize) -> Unit
        requires { u < length (instance_of self).units }
        ensures { result.generator ≡ get_or (instance_of self.entry).units u blank_generator }
    {
        let from = 98 + u * 16;
        let generator = generator_of(&self.numbers[from..]);
        Unit { generator }
    }

    // The pU of the unit whose rank is number i, counted from 0.
    pub fn size(self, i: usize) -> u64
        requires { i < length (instance_of self).units }
        ensures { result ≡ pU_of (get_or (ranked (instance_of self.entry).units) i 0) }
    {
        self.numbers[610 + i]
    }

    // The place where that unit's statuses begin.
    pub fn place(self, i: usize) -> usize
        requires { i < length (instance_of self).units }
        ensures { result ≡ place_of (instance_of self.entry).periods (get_or (ranked (instance_of self.entry).units) i 0) }
    {
        self.numbers[642 + i] as usize
    }
}
