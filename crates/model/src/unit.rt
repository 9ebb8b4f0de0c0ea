// A generator that is good.
ghost use Rattle.std.specs.Prelude.{◌≡◌};
ghost use Rattle.model.specs.Ranges.{GoodUnit};
ghost use Rattle.model.specs.OneProof.{GoodUnit-prop};

use crate::generator::Generator;

// A unit: a generator whose line neither 13 nor 15 refuses.
#[derive(Clone, Copy)]
pub struct Unit {
    pub generator: Generator,
    pub ghost good: { GoodUnit generator } by { GoodUnit-prop generator },
}
