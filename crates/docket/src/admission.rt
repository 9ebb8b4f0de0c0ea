// Whether a text comes to be judged by its lines.
ghost use Rattle.std.specs.Prelude.{◌≡◌};
ghost use Rattle.docket.specs.Lodging.{admit_kind, admit};

use refusal::Refusal;
use text::Kind;

// By the lines of which kind a text is judged.
#[derive(Clone, Copy)]
pub enum Admission {
    Problem,
    Schedule,
    Tree,
}

// A text has at most so many bytes.
const MOST_BYTES: usize = 1_048_576;

// A text whose first line says the kind: by 12 for that line, and by 41 or 42 as a problem is known or not.
fn admit_kind(kind: Kind, known: bool) -> Result<Admission, Refusal>
    ensures { result ≡ admit_kind kind known }
{
    match (kind, known) {
        (Kind::Unknown, _) => Err(refusal::refuse(12, 1, 0, 0)),
        (Kind::Problem, true) => Err(refusal::refuse(41, 0, 0, 0)),
        (Kind::Schedule | Kind::Tree, false) => Err(refusal::refuse(42, 0, 0, 0)),
        (Kind::Problem, false) => Ok(Admission::Problem),
        (Kind::Schedule, true) => Ok(Admission::Schedule),
        (Kind::Tree, true) => Ok(Admission::Tree),
    }
}

// The text by 11, and then by its first line: refused before its other lines, or judged by them.
pub fn admit(known: bool, text: &[u8]) -> Result<Admission, Refusal>
    ensures { result ≡ admit known text.now }
{
    if text.len() > MOST_BYTES {
        return Err(refusal::refuse(11, 0, 0, 0));
    }
    admit_kind(reader::read_kind(text), known)
}
