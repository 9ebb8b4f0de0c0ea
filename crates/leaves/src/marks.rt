// The bytes of statuses: what one unit adds by its byte, and whether bytes are statuses.
ghost use Rattle.std.specs.Prelude.{◌≡◌, [], length};
ghost use Rattle.model.specs.Largest.{total};
ghost use Rattle.model.specs.Leaf.{unless_off};
ghost use Rattle.model.specs.Ranges.{every};
ghost use Rattle.walk.specs.Marks.{is_status, mark_of};

// 1 for a unit that is not fixed off. No branch hangs on the byte, since the next one cannot be foretold: of `usize::from(mark != 1)` the
// compiler makes one, and `short` takes a tenth more steps.
pub fn not_off_of(mark: u8) -> usize
    ensures { result ≡ length (unless_off (mark_of mark) 0 []) }
{
    (usize::from(mark ^ 1) + 255) / 256
}

// pU, but 0 for a unit that is fixed off.
pub fn usable_of(mark: u8, high: u64) -> u64
    ensures { result ≡ total (unless_off (mark_of mark) high []) }
{
    high * not_off_of(mark) as u64
}

// Whether every byte is a status.
pub fn are_statuses(fixed: &[u8]) -> bool
    ensures { result ≡ every is_status fixed.now }
{
    fixed.iter().all(|mark| *mark <= 2)
}
