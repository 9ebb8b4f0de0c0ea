// 24: up and down times, by (5) to (10).
ghost use Rattle.std.specs.Prelude.{◌≡◌, not, ◌<◌, ◌≤◌, length};
ghost use Rattle.model.specs.Instance.{◌at◌};
ghost use Rattle.model.specs.Ranges.{InRange};
ghost use Rattle.model.specs.Rules.{on, statuses, permits};
ghost use Rattle.judge.specs.Counts.{bit, barred};
ghost use Rattle.judge.specs.Before.{status_before, spent_before};

use model::generator::Generator;

// Whether the row's output in period t is above 0.
pub fn is_on(row: &[u16], t: usize) -> bool
    requires { t < length row.now }
    ensures { result ≡ on (row.now at t) }
{
    row[t] != 0
}

// Whether the unit is on in the period before t; before period 1 the generator says.
fn was_on(g: Generator, row: &[u16], t: usize) -> bool
    requires { t < length row.now }
    ensures { result ≡ status_before g.on (statuses row.now) t }
{
    if t == 0 { g.on } else { is_on(row, t - 1) }
}

// The periods just before t that the unit has spent in one status, those before period 1 with them.
fn count_back(g: Generator, row: &[u16], t: usize) -> usize
    requires { InRange g × (t < length row.now) × (length row.now ≤ 48) }
    ensures { result ≡ spent_before g.on g.since (statuses row.now) t }
{
    let status = was_on(g, row, t);
    for k in (0..t).rev() {
        if is_on(row, k) != status {
            return t - 1 - k;
        }
    }
    if g.on == status { g.since + t } else { t }
}

// Whether the up and down times permit the unit's status in period t.
// It returns early, since to count back costs more than the test before it.
pub fn is_permitted(g: Generator, row: &[u16], t: usize) -> bool
    requires { InRange g × (t < length row.now) × (length row.now ≤ 48) }
    ensures { result ≡ not (barred t g row.now) }
{
    let before = was_on(g, row, t);
    let after = is_on(row, t);
    if before == after {
        return true;
    }
    let spent = count_back(g, row, t);
    if before { g.TU <= spent } else { g.TD <= spent }
}

// 1 if the unit may not change its status after k periods in it, else 0.
pub fn count_barred(g: Generator, status: bool, k: usize) -> u16
    ensures { result ≡ bit (not (permits g status k (not status))) }
{
    let least = if status { g.TU } else { g.TD };
    u16::from(k < least)
}
