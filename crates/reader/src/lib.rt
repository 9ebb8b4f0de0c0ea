// The reader of a text: the lent text and the next line's start, and what stands there.
#![tactic(auto)]

ghost use Rattle.std.specs.Prelude.{◌≡◌, true, drop};
ghost use Rattle.text.specs.Lines.{one_line, lines_of, line_at, kind_of, due};
ghost use Rattle.text.specs.Ends.{end_of};
ghost use Rattle.reader.specs.Places.{placed, lines_left};
ghost use Rattle.reader.specs.Written.{writer_line, writer_read};

use model::ranges::Span;
use text::{End, Fault, Kind, is_line};

// A lent text, and the start of its next line.
#[derive(Clone, Copy)]
pub struct Reader<'a> {
    text: &'a [u8],
    at: usize,
}

// A good writer's line: the writer, and the next line's start.
#[derive(Clone, Copy)]
pub struct WriterLine {
    pub writer: u64,
    pub next: usize,
}

// The writer of a good writer's line, and the reader past it.
#[derive(Clone, Copy)]
pub struct WriterRead<'a> {
    writer: u64,
    reader: Reader<'a>,
}

impl<'a> Reader<'a> {
    // The reader of a text, at its first line.
    pub fn open(text: &'a [u8]) -> Reader<'a>
        ensures { result ≡ placed text.entry 0 }
    {
        Reader { text, at: 0 }
    }

    // The reader of the same text, at the line that starts at `at`.
    pub fn moved(self, at: usize) -> Reader<'a>
        ensures { result ≡ placed self.entry.text at }
    {
        Reader { at, ..self }
    }

    // The kind of text that the next line says.
    pub fn kind(self) -> Kind
        ensures { result ≡ kind_of (due (lines_left self.entry)) }
    {
        kind_at(self.text, self.at)
    }

    // Whether the next line is the end line, this word, and the last.
    pub fn end<'b>(self, word: &'b [u8]) -> End
        requires { one_line word.now ≡ true }
        ensures { result ≡ end_of word.now (lines_left self.entry) }
    {
        end_at(self.text, self.at, word)
    }

    // What the next line says as the writer's, with the reader past it, or what is wrong with the line.
    pub fn writer(self) -> Result<WriterRead<'a>, Fault>
        ensures { result ≡ writer_read self.entry }
    {
        let line = writer_at(self.text, self.at)?;
        Ok(WriterRead {
            writer: line.writer,
            reader: self.moved(line.next),
        })
    }
}

// The methods are thin: what they say of a line is found by functions on a slice and a number (docs/DECISIONS.md, 29).

// The kind of text that the line says which starts at `at`.
fn kind_at(s: &[u8], at: usize) -> Kind
    ensures { result ≡ kind_of (line_at s.now at) }
{
    if is_line(s, at, b"kind=problem") {
        return Kind::Problem;
    }
    if is_line(s, at, b"kind=schedule") {
        return Kind::Schedule;
    }
    if is_line(s, at, b"kind=tree") {
        return Kind::Tree;
    }
    Kind::Unknown
}

// Whether the line that starts at `at` is the end line, this word, and the last.
fn end_at(s: &[u8], at: usize, word: &[u8]) -> End
    requires { one_line word.now ≡ true }
    ensures { result ≡ end_of word.now (lines_of (drop at s.now)) }
{
    if !is_line(s, at, word) {
        return End::Missing;
    }
    let next = at + word.len() + 1;
    if next < s.len() {
        return End::Followed;
    }
    End::Last
}

// What the line that starts at `at` says as the writer's, with the next line's start, or what is wrong with it.
fn writer_at(s: &[u8], at: usize) -> Result<WriterLine, Fault>
    ensures { result ≡ writer_line (line_at s.now at) at }
{
    let row = text::read_row(s, at, b"writer=", 1, Span::WRITER.least, Span::WRITER.most)?;
    Ok(WriterLine {
        writer: row.values[0],
        next: row.next,
    })
}

// What the first line of a text says.
pub fn read_kind(s: &[u8]) -> Kind
    ensures { result ≡ kind_of (line_at s.now 0) }
{
    Reader::open(s).kind()
}

// Whether the line that starts at `at` is the end line, this word, and the last.
pub fn read_end(s: &[u8], at: usize, word: &[u8]) -> End
    requires { one_line word.now ≡ true }
    ensures { result ≡ end_of word.now (lines_of (drop at s.now)) }
{
    Reader::open(s).moved(at).end(word)
}

// What the line that starts at `at` says as the writer's, with the next line's start, or what is wrong with it.
pub fn read_writer(s: &[u8], at: usize) -> Result<WriterLine, Fault>
    ensures { result ≡ writer_line (line_at s.now at) at }
{
    let read = Reader::open(s).moved(at).writer()?;
    Ok(WriterLine {
        writer: read.writer,
        next: read.reader.at,
    })
}
