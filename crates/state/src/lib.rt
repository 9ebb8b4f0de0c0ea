// A docket in two lent slices: 618 numbers, and the 1,536 outputs of its held schedule.
#![tactic(auto)]

ghost use Rattle.std.specs.Prelude.{◌≡◌, true, ◌≤◌, length, take};
ghost use Rattle.writer.specs.Written.{over};
ghost use Rattle.docket.specs.Docket.{sound};
ghost use Rattle.state.specs.Layout.{docket_in};
ghost use Rattle.state.specs.Kept.{long, opened, kept_numbers, kept_rows, is_held, lodged_numbers, lodged_rows, outputs_count, outputs_of};

use answer::Answer;
use docket::held::Held;
use docket::{Docket, Lodged, sound};

mod held;

// The first number of every state: that it is a docket's, and how it lies.
const MARK: u64 = 19_227_448_860_562_434;

// Whether the slices have room for a state.
pub fn is_long(numbers: &[u64], rows: &[u16]) -> bool
    ensures { result ≡ long numbers.now rows.now }
{
    618 <= numbers.len() && 1536 <= rows.len()
}

// The first 1536 outputs.
fn rows_in(rows: &[u16]) -> [u16; 1536]
    requires { 1536 ≤ length rows.now }
    ensures { result ≡ take 1536 rows.now }
{
    *rows.first_chunk().unwrap()
}

// The docket of a state's numbers, sound or not.
fn docket_in(numbers: &[u64], rows: &[u16]) -> Docket
    requires in_bounds { 618 ≤ length numbers.now }
    requires in_bounds_2 { 1536 ≤ length rows.now }
    ensures { result ≡ docket_in numbers.now rows.now }
{
    Docket {
        known: numbers[1] != 0,
        problem: layout::reading::problem_in(&numbers[8..]),
        held: Held {
            cost: held::cost_in(numbers[2], numbers[3], numbers[4]),
            bound: held::bound_in(numbers[5], numbers[6], numbers[7]),
        },
        rows: rows_in(rows),
    }
}

// The docket of a state's numbers, where they have the mark and it is sound; or else what they decode to, which is no docket to go on with.
pub fn opened_in(numbers: &[u64], rows: &[u16]) -> Result<Docket, Docket>
    requires in_bounds { 618 ≤ length numbers.now }
    requires in_bounds_2 { 1536 ≤ length rows.now }
    ensures { result ≡ opened numbers.now rows.now }
{
    let docket = docket_in(numbers, rows);
    if numbers[0] == MARK && sound::is_sound(docket) {
        return Ok(docket);
    }
    Err(docket)
}

// The slices hold the docket.
pub fn keep(docket: Docket, numbers: &mut [u64], rows: &mut [u16])
    requires in_bounds { 618 ≤ length numbers.old }
    requires in_bounds_2 { 1536 ≤ length rows.old }
    ensures numbers_after { numbers.new ≡ kept_numbers docket numbers.old }
    ensures rows_after { rows.new ≡ kept_rows docket rows.old }
{
    layout::copies::store(numbers, 0, &[MARK, u64::from(docket.known)]);
    layout::copies::store(numbers, 2, &held::cost_numbers(docket.held.cost));
    layout::copies::store(numbers, 5, &held::bound_numbers(docket.held.bound));
    layout::copies::store(numbers, 8, &layout::lay_out(docket.problem));
    layout::copies::store(rows, 0, &docket.rows);
}

// Whether the answer says that the text is held.
fn is_held(answer: Answer) -> bool
    ensures { result ≡ is_held answer }
{
    matches!(
        answer,
        Answer::TextHeld | Answer::ScheduleHeld(_) | Answer::TreeHeld(_)
    )
}

// The slices hold the docket after a text that is held; after any other they are as they were.
pub fn keep_held(lodged: Lodged, numbers: &mut [u64], rows: &mut [u16])
    requires in_bounds { 618 ≤ length numbers.old }
    requires in_bounds_2 { 1536 ≤ length rows.old }
    ensures numbers_after { numbers.new ≡ lodged_numbers lodged numbers.old }
    ensures rows_after { rows.new ≡ lodged_rows lodged rows.old }
{
    if is_held(lodged.answer) {
        keep(lodged.docket, numbers, rows);
    }
}

// How many outputs the held schedule has.
fn count_outputs(docket: Docket) -> usize
    requires { sound docket ≡ true }
    ensures { result ≡ outputs_count docket }
{
    match docket.held.cost {
        None => 0,
        Some(_) => docket.problem.units * docket.problem.periods,
    }
}

// How many outputs the held schedule has; they now stand at the front.
pub fn copy_outputs(docket: Docket, outputs: &mut [u16]) -> usize
    requires docket_value { sound docket ≡ true }
    requires in_bounds { 1536 ≤ length outputs.old }
    ensures value { result ≡ outputs_count docket }
    ensures outputs_after { outputs.new ≡ over (outputs_of docket) outputs.old }
{
    let n = count_outputs(docket);
    layout::copies::store(outputs, 0, &docket.rows[..n]);
    n
}
