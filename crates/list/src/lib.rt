// The listing on bytes: the texts of an input lodged in turn in one fresh docket, a line for each answer, then the report.
#![tactic(auto)]

ghost use Rattle.std.specs.Prelude.{◌≡◌, true, ◌+◌, ◌≤◌, length};
ghost use Rattle.pieces.specs.Pieces.{pieces};
ghost use Rattle.report.specs.Report.{put_at};
ghost use Rattle.writer.specs.Written.{over};
ghost use Rattle.docket.specs.Docket.{sound};
ghost use Rattle.docket.specs.Report.{report_text};
ghost use Rattle.list.specs.Listing.{listed, too_much, listed_of, output_of};

use docket::{Docket, admission};

// The place after the docket's report, which is written from the place n on.
fn write_report(docket: Docket, output: &mut [u8], n: usize) -> usize
    requires docket_value { sound docket ≡ true }
    requires held_in_bounds { n + length (report_text docket.held) ≤ length output.old }
    ensures value { result ≡ n + length (report_text docket.held) }
    ensures output_after { output.new ≡ put_at output.old n (report_text docket.held) }
{
    match docket.report(output, n).answer {
        Ok(k) => n + k,
        Err(_) => n,
    }
}

// How many bytes were written: 11 as the one answer, and the report of a fresh docket.
fn refuse_input(output: &mut [u8]) -> usize
    requires { 1048576 ≤ length output.old }
    ensures value { result ≡ length too_much }
    ensures output_after { output.new ≡ over too_much output.old }
{
    let n = answer::write_refusal(output, refusal::refuse(11, 0, 0, 0));
    write_report(Docket::fresh(), output, n)
}

// How many bytes were written: a line for each piece of the input, lodged in turn in one fresh docket, and its report.
fn lodge_pieces(input: &[u8], output: &mut [u8]) -> usize
    requires input_len_bound { length input.now ≤ 65536 }
    requires in_bounds { 1048576 ≤ length output.old }
    ensures value { result ≡ length (listed (pieces input.now)) }
    ensures output_after { output.new ≡ over (listed (pieces input.now)) output.old }
{
    let mut docket = Docket::fresh();
    let mut n = 0;
    let mut at = 0;
    while at < input.len() {
        let end = pieces::piece_end(input, at);
        let piece = &input[at..end];
        at = end;
        // Not a function: it would copy the docket, which a text refused here leaves as it is.
        if let Err(refusal) = admission::admit(docket.known, piece) {
            n += answer::write_refusal(&mut output[n..], refusal);
            continue;
        }
        let lodged = docket.lodge(piece);
        docket = lodged.docket;
        n += answer::write_answer(&mut output[n..], lodged.answer);
    }
    write_report(docket, output, n)
}

// How many bytes of the output were written: the listing of the input. None where the output has fewer than 1,048,576 bytes, which is too small.
pub fn list(input: &[u8], output: &mut [u8]) -> Option<usize>
    ensures answer { result ≡ listed_of input.now output.old }
    ensures bytes { output.new ≡ output_of input.now output.old }
{
    if output.len() < 1048576 {
        return None;
    }
    if 65536 < input.len() {
        return Some(refuse_input(output));
    }
    Some(lodge_pieces(input, output))
}
