// A line that names one unit or one period.
ghost use Rattle.std.specs.Prelude.{◌≡◌, true, ◌≤◌, drop};
ghost use Rattle.text.specs.Lines.{one_line, begins};
ghost use Rattle.tree.specs.ReadAnswers.{named_line_read};

use text::Fault;

// What a good such line says: the one that it names, from 0, and the next line's start.
#[derive(Clone, Copy)]
pub struct NamedLine {
    pub index: usize,
    pub next: usize,
}

// The line that starts at `at`, where it is known to begin with key, and may name 1 to most; or what is wrong with it.
pub fn read_named(text: &[u8], at: usize, key: &[u8], most: usize) -> Result<NamedLine, Fault>
    requires key_value { (one_line key.now ≡ true) × (most ≤ 48) }
    requires text_value { begins key.now (drop at text.now) ≡ true }
    ensures { result ≡ named_line_read key.now most text.now at }
{
    let mut values = [0u64; 1];
    let next = text::fill_line(text, at, key, &[1], &[most as u64], &mut values)?;
    Ok(NamedLine {
        index: (values[0] - 1) as usize,
        next,
    })
}
