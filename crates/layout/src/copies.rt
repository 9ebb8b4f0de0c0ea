// Values copied into a slice that is lent.
ghost use Rattle.std.specs.Prelude.{◌≡◌, ◌+◌, ◌≤◌, length};
ghost use Rattle.std.proofs.Math.Seq.{paste};

// Stores these values from `from` on.
pub fn store<T: Copy>(numbers: &mut [T], from: usize, values: &[T])
    requires { from + length values.now ≤ length numbers.old }
    ensures { numbers.new ≡ paste numbers.old from values.now (length values.now) }
{
    for (i, value) in values.iter().enumerate() {
        numbers[from + i] = *value;
    }
}
