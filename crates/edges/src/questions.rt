// Questions about the units that `short` takes (document 02, [2]). The statuses are a text's bytes, each less 48.
ghost use Rattle.std.specs.Prelude.{◌≡◌, map};
ghost use Rattle.docket.specs.Taking.{taken_of};
ghost use Rattle.edges.specs.Statuses.{status_of};

use crate::texts;
use docket::Docket;
use leaves::short::Taken;
use runs::question::Unanswered;

// The status that b stands for: b less 48, wrapped.
fn status_of(b: u8) -> u8
    ensures { result ≡ status_of b }
{
    b.wrapping_sub(b'0')
}

// The answer. Of a longer text 1,537 bytes are asked about, which are too many as well: no problem has more than 1,536 statuses.
pub fn ask(d: Docket, period: usize, most: usize, s: &[u8]) -> Result<Taken, Unanswered>
    ensures { result ≡ taken_of d period most (map status_of s.now) }
{
    let s = texts::front(s, 1537);
    let mut room = [0; 1537];
    texts::put(&mut room, s, status_of);
    d.units_taken(period, most, &room[..s.len()])
}
