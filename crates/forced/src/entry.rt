// An entry: the values of the periods passed joined with those kept of the periods left.
ghost use Rattle.std.specs.Prelude.{◌≡◌, true, false, ℕ, ◌+◌, ◌*◌, ◌≤◌, ◌<◌, min, length};
ghost use Rattle.model.specs.Instance.{◌at◌};
ghost use Rattle.model.specs.ForcedWalk.{both, least_upto};
ghost use Rattle.walk.specs.Limits.{GoodValue};
ghost use Rattle.runs.specs.Kept.{first_of};
ghost use Rattle.forced.specs.Entries.{entry_of};

use model::unit::Unit;
use runs::table::{FIRST_OFF, STATES, kept_at};
use walk::table::lesser_value;

// The sum of two coded values.
fn both_values(x: u64, y: u64) -> u64
    requires { GoodValue x × GoodValue y }
    ensures { result ≡ both x y }
{
    if x == 0 || y == 0 { 0 } else { x + y - 1 }
}

// The least sum of a state, of the first so many, and what is kept for it from `begin` on.
fn join_states(states: &[u64], reached: usize, table: &[u64], begin: usize) -> u64
    requires reached_in_bounds { (reached ≤ length states.now) × (begin + reached ≤ length table.now) × (begin ≤ 7105) }
    requires by_index { ((k : ℕ) → GoodValue (states.now at k)) × ((k : ℕ) → GoodValue (table.now at k)) }
    ensures { result ≡ least_upto reached (λ i. both (states.now at i) (table.now at (begin + i))) }
{
    let mut found = 0;
    for i in 0..reached {
        found = lesser_value(found, both_values(states[i], table[begin + i]));
    }
    found
}

// Where the values kept before period t begin, of a status.
fn begin_of(t: usize, status: bool) -> usize
    requires { t ≤ 48 }
    ensures { result ≡ t * 145 + first_of status }
{
    if status {
        t * STATES
    } else {
        t * STATES + FIRST_OFF
    }
}

// The entry of a status in the period before period t of the table: states and own are of the periods passed up to there.
pub fn entry_value(
    unit: Unit,
    table: &[u64],
    t: usize,
    status: bool,
    states: &[u64],
    own: u64,
) -> u64
    requires table_len { (length table.now ≡ 7105) × ((k : ℕ) → GoodValue (table.now at k)) × (t ≤ 48) }
    requires states_len_bound { (length states.now ≤ 97) × ((k : ℕ) → GoodValue (states.now at k)) × GoodValue own }
    ensures { result ≡ entry_of unit.generator table.now t status states.now own }
{
    let g = unit.generator;
    let found = join_states(states, t.min(states.len()), table, begin_of(t, status));
    if g.on == status {
        let kept = kept_at(unit, table, t, status, g.since + t);
        lesser_value(found, both_values(own, kept))
    } else {
        found
    }
}
