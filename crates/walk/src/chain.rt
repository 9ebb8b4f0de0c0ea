// The values of a run of states of one status, one period back. Where VALUED holds every value is there, and none is tested for.
ghost use Rattle.std.specs.Prelude.{◌≡◌, true, ℕ, ◌+◌, ◌-◌, ◌≤◌, ◌<◌, min, length};
ghost use Rattle.model.specs.Instance.{◌at◌};
ghost use Rattle.model.specs.Walk.{plus, lesser};
ghost use Rattle.walk.specs.Limits.{GoodCost, GoodValue};
ghost use Rattle.walk.specs.GoingBack.{Rewritten};

// A coded value with k added.
pub fn plus_value<const VALUED: bool>(k: u64, v: u64) -> u64
    requires good { GoodCost k × GoodValue v }
    requires valued { VALUED ≡ true → 0 < v }
    ensures { result ≡ plus k v }
{
    if !VALUED && v == 0 { 0 } else { k + v }
}

// The lesser of a value that is there and a coded value with k added.
fn lesser_plus<const VALUED: bool>(early: u64, k: u64, v: u64) -> u64
    requires good { (0 < early) × (GoodCost k × GoodValue v) }
    requires valued { VALUED ≡ true → 0 < v }
    ensures { result ≡ lesser early (plus k v) }
{
    if !VALUED && v == 0 {
        early
    } else {
        (k + v).min(early)
    }
}

// The same of two coded values.
pub fn lesser_coded<const VALUED: bool>(x: u64, k: u64, v: u64) -> u64
    requires good { GoodCost k × GoodValue v }
    requires valued { VALUED ≡ true → (0 < x) × (0 < v) }
    ensures { result ≡ lesser x (plus k v) }
{
    if !VALUED && x == 0 {
        plus_value::<VALUED>(k, v)
    } else {
        lesser_plus::<VALUED>(x, k, v)
    }
}

// The place of the first state that may be left after need periods, where the last one is at end.
pub fn first_early(need: usize, end: usize) -> usize
    ensures { result ≡ min (need - 1) end }
{
    need.saturating_sub(1).min(end)
}

// Gives the states from `from` to `to` the value v.
pub fn fill_states(states: &mut [u64], from: usize, to: usize, v: u64)
    requires { (from ≤ to) × (to ≤ length states.old) }
    ensures { Rewritten states.old states.new from to (λ k. v) }
{
    states[from..to].fill(v);
}

// Gives the states from `from` to `to` the next state's value with the cost of keeping the status.
pub fn keep_states<const VALUED: bool>(states: &mut [u64], from: usize, to: usize, cost: u64)
    requires from_le_to { (from ≤ to) × (to < length states.old) }
    requires good_cost { GoodCost cost × ((k : ℕ) → from ≤ k → GoodValue (states.old at k)) }
    requires valued { VALUED ≡ true → (k : ℕ) → from ≤ k → k ≤ to → 0 < states.old at k }
    ensures { Rewritten states.old states.new from to (λ k. plus cost (states.old at (k + 1))) }
{
    for i in from..to {
        states[i] = plus_value::<VALUED>(cost, states[i + 1]);
    }
}

// The same, or the value of leaving the status early, which is there, if that is less.
fn lower_states<const VALUED: bool>(
    states: &mut [u64],
    from: usize,
    to: usize,
    early: u64,
    cost: u64,
)
    requires from_le_to { (from ≤ to) × (to < length states.old) × (0 < early) }
    requires good_cost { GoodCost cost × ((k : ℕ) → from ≤ k → GoodValue (states.old at k)) }
    requires valued { VALUED ≡ true → (k : ℕ) → from ≤ k → k ≤ to → 0 < states.old at k }
    ensures { Rewritten states.old states.new from to (λ k. lesser early (plus cost (states.old at (k + 1)))) }
{
    for i in from..to {
        states[i] = lesser_plus::<VALUED>(early, cost, states[i + 1]);
    }
}

// Gives the states from `from` to `to` the lesser value of leaving the status early and of keeping it.
pub fn leave_or_keep_states<const VALUED: bool>(
    states: &mut [u64],
    from: usize,
    to: usize,
    early: u64,
    cost: u64,
)
    requires from_le_to { (from ≤ to) × (to < length states.old) }
    requires good_cost { GoodCost cost × ((k : ℕ) → from ≤ k → GoodValue (states.old at k)) }
    requires valued { VALUED ≡ true → (0 < early) × ((k : ℕ) → from ≤ k → k ≤ to → 0 < states.old at k) }
    ensures { Rewritten states.old states.new from to (λ k. lesser early (plus cost (states.old at (k + 1)))) }
{
    if !VALUED && early == 0 {
        keep_states::<VALUED>(states, from, to, cost);
    } else {
        lower_states::<VALUED>(states, from, to, early, cost);
    }
}
