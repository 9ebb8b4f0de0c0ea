// Rows of outputs in one array.
ghost use Rattle.std.specs.Prelude.{◌≡◌, ◌+◌, ◌≤◌, length};
ghost use Rattle.std.proofs.Math.Seq.{paste};
ghost use Rattle.model.specs.Ranges.{All, GoodOutput};

// Stores these values in the rows from `from` on.
pub fn store_row(rows: &mut [u16; 1536], from: usize, values: &[u64])
    requires { (from + length values.now ≤ 1536) × ((length rows.old ≡ 1536) × All GoodOutput values.now) }
    ensures { rows.new ≡ paste rows.old from values.now (length values.now) }
{
    for (t, value) in values.iter().enumerate() {
        rows[from + t] = *value as u16;
    }
}
