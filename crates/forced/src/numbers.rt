// A unit's coded entries in numbers: their values, and which of them say stuck.
ghost use Rattle.std.specs.Prelude.{◌≡◌, map, ◌≤◌, length};
ghost use Rattle.model.specs.Ranges.{All};
ghost use Rattle.walk.specs.Limits.{GoodValue};
ghost use Rattle.forced.specs.Entries.{number_of, byte_of};

// The value of an entry less what was added to it, 0 where it says stuck.
fn value_number(entry: u64, added: u64) -> i64
    requires { GoodValue entry × GoodValue added }
    ensures { result ≡ number_of added entry }
{
    if entry == 0 {
        return 0;
    }
    (entry - 1) as i64 - added as i64
}

// 1 where it says stuck, else 0.
fn stuck_number(entry: u64) -> u8
    ensures { result ≡ byte_of 0 entry }
{
    u8::from(entry == 0)
}

// Writes the entries in numbers.
pub fn write_numbers(entries: &[u64], added: u64, values: &mut [i64], stuck: &mut [u8])
    requires all { All GoodValue entries.now × GoodValue added }
    requires values_len { (length values.old ≡ length entries.now) × (length stuck.old ≡ length entries.now) }
    ensures values { values.new ≡ map (number_of added) entries.now }
    ensures stuck { stuck.new ≡ map (byte_of added) entries.now }
{
    for (i, entry) in entries.iter().enumerate() {
        values[i] = value_number(*entry, added);
        stuck[i] = stuck_number(*entry);
    }
}
