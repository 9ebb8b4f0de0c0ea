// The docket for programs in C, Rust and Python (hosts/), in the archive libdocket_host.a: a docket that stays open, whose state lies in two
// slices that the caller lends and keeps between calls; and the listing, one function on bytes.
#![tactic(auto)]

ghost use Rattle.std.specs.Prelude.{◌≡◌, ◌≤◌, length};
ghost use Rattle.list.specs.Listing.{listed_of, output_of};
ghost use Rattle.state.specs.Layout.{numbers_count, rows_count};
ghost use Rattle.docket_host.specs.HostAnswer.{host_answer};
ghost use Rattle.docket_host.specs.Calls.{rules, fresh_answer, fresh_numbers, fresh_rows, lodge_room, lodge_answer, lodge_numbers, lodge_rows, lodge_line, lodge_values, report_answer, report_bytes, outputs_room, outputs_answer, outputs_rows, taken_room, unanswered_number, taken_number, taken_written, taken_answer, taken_numbers, Few, runs_number, value_told, runs_answer, runs_rows, runs_short, runs_value, forced_number, forced_answer, forced_values, forced_stuck};

use docket::Docket;
use leaves::short::Taken;
use runs::drafting::NoRuns;
use runs::question::Unanswered;

// What a call answers where it does nothing (hosts/c/docket.h): too little is lent; the state holds no docket.
pub const TOO_SMALL: usize = 18446744073709551615;

pub const NO_DOCKET: usize = 18446744073709551614;

// The number of the rules by which texts are judged.
#[unsafe(no_mangle)]
pub extern "C" fn docket_rules() -> usize
    ensures { result ≡ rules }
{
    4
}

// How many numbers the first slice of a state has.
#[unsafe(no_mangle)]
pub extern "C" fn docket_numbers() -> usize
    ensures { result ≡ numbers_count }
{
    618
}

// How many numbers its second slice has.
#[unsafe(no_mangle)]
pub extern "C" fn docket_rows() -> usize
    ensures { result ≡ rows_count }
{
    1536
}

// 0, and the state is that of a docket that holds nothing; or TOO_SMALL, and nothing is changed.
#[unsafe(no_mangle)]
pub extern "C" fn docket_fresh(numbers: &mut [u64], rows: &mut [u16]) -> usize
    ensures answer { result ≡ fresh_answer numbers.old rows.old }
    ensures numbers { numbers.new ≡ fresh_numbers numbers.old rows.old }
    ensures rows { rows.new ≡ fresh_rows numbers.old rows.old }
{
    if !state::is_long(numbers, rows) {
        return TOO_SMALL;
    }
    state::keep(Docket::fresh(), numbers, rows);
    0
}

// Whether as much is lent as `docket_lodge` asks for.
fn has_lodge_room(numbers: &[u64], rows: &[u16], line: &[u8], values: &[u64]) -> bool
    ensures { result ≡ lodge_room numbers.now rows.now line.now values.now }
{
    state::is_long(numbers, rows) && 128 <= line.len() && 16 <= values.len()
}

// How many bytes of `line` hold the line of the answer to the text, whose numbers `values` begins with; the state is that of the docket
// after the text. Or TOO_SMALL or NO_DOCKET, and nothing is changed.
#[unsafe(no_mangle)]
pub extern "C" fn docket_lodge(
    numbers: &mut [u64],
    rows: &mut [u16],
    text: &[u8],
    line: &mut [u8],
    values: &mut [u64],
) -> usize
    ensures answer { result ≡ lodge_answer numbers.old rows.old text.now line.old values.old }
    ensures numbers { numbers.new ≡ lodge_numbers numbers.old rows.old text.now line.old values.old }
    ensures rows { rows.new ≡ lodge_rows numbers.old rows.old text.now line.old values.old }
    ensures line { line.new ≡ lodge_line numbers.old rows.old text.now line.old values.old }
    ensures values { values.new ≡ lodge_values numbers.old rows.old text.now line.old values.old }
{
    if !has_lodge_room(numbers, rows, line, values) {
        return TOO_SMALL;
    }
    let Ok(docket) = state::opened_in(numbers, rows) else {
        return NO_DOCKET;
    };
    let lodged = docket.lodge(text);
    let answer = lodged.answer;
    state::keep_held(lodged, numbers, rows);
    layout::copies::store(values, 0, &answer::values::answer_numbers(answer));
    answer::write_answer(line, answer)
}

// How many bytes of the buffer from `at` on hold the docket's report. Or TOO_SMALL (43, or a short state) or NO_DOCKET, and nothing is changed.
#[unsafe(no_mangle)]
pub extern "C" fn docket_report(
    numbers: &[u64],
    rows: &[u16],
    buffer: &mut [u8],
    at: usize,
) -> usize
    ensures answer { result ≡ report_answer numbers.now rows.now buffer.old at }
    ensures bytes { buffer.new ≡ report_bytes numbers.now rows.now buffer.old at }
{
    if !state::is_long(numbers, rows) {
        return TOO_SMALL;
    }
    let Ok(docket) = state::opened_in(numbers, rows) else {
        return NO_DOCKET;
    };
    docket.report(buffer, at).answer.unwrap_or(TOO_SMALL)
}

// Whether as much is lent as `docket_outputs` asks for.
fn has_outputs_room(numbers: &[u64], rows: &[u16], outputs: &[u16]) -> bool
    ensures { result ≡ outputs_room numbers.now rows.now outputs.now }
{
    state::is_long(numbers, rows) && 1536 <= outputs.len()
}

// How many outputs the held schedule has, 0 where none is held; they stand at the front of `outputs`, unit u's from u times T on. Or TOO_SMALL or
// NO_DOCKET, and nothing is changed.
#[unsafe(no_mangle)]
pub extern "C" fn docket_outputs(numbers: &[u64], rows: &[u16], outputs: &mut [u16]) -> usize
    ensures answer { result ≡ outputs_answer numbers.now rows.now outputs.old }
    ensures rows { outputs.new ≡ outputs_rows numbers.now rows.now outputs.old }
{
    if !has_outputs_room(numbers, rows, outputs) {
        return TOO_SMALL;
    }
    let Ok(docket) = state::opened_in(numbers, rows) else {
        return NO_DOCKET;
    };
    state::copy_outputs(docket, outputs)
}

// Whether as much is lent as `docket_units_taken` asks for.
fn has_taken_room(numbers: &[u64], rows: &[u16], taken: &[u64]) -> bool
    ensures { result ≡ taken_room numbers.now rows.now taken.now }
{
    state::is_long(numbers, rows) && 2 <= taken.len()
}

// Why a question has no answer, as one number.
fn unanswered_number(why: Unanswered) -> usize
    ensures { result ≡ unanswered_number why }
{
    match why {
        Unanswered::NoProblem => 1,
        Unanswered::Unfit => 2,
    }
}

// The answer as one number; where units were taken, `taken` begins with whether they are short and how many they are.
fn tell_taken(answer: Result<Taken, Unanswered>, taken: &mut [u64]) -> usize
    requires { 2 ≤ length taken.old }
    ensures number { result ≡ taken_number answer }
    ensures taken { taken.new ≡ taken_written answer taken.old }
{
    match answer {
        Ok(found) => {
            taken[0] = u64::from(found.short);
            taken[1] = found.units as u64;
            0
        }
        Err(why) => unanswered_number(why),
    }
}

// How many units `short` takes in the period, counted from 1, where these statuses are fixed and this upper count stands (0 for none, else one more than
// it): 0, and `taken` begins with 1 for short or 0 and then how many; 1 where no problem is known, 2 where the question does not fit it. Or TOO_SMALL or
// NO_DOCKET. Nothing else is changed.
#[unsafe(no_mangle)]
pub extern "C" fn docket_units_taken(
    numbers: &[u64],
    rows: &[u16],
    period: usize,
    most: usize,
    fixed: &[u8],
    taken: &mut [u64],
) -> usize
    ensures answer { result ≡ taken_answer numbers.now rows.now period most fixed.now taken.old }
    ensures taken { taken.new ≡ taken_numbers numbers.now rows.now period most fixed.now taken.old }
{
    if !has_taken_room(numbers, rows, taken) {
        return TOO_SMALL;
    }
    let Ok(docket) = state::opened_in(numbers, rows) else {
        return NO_DOCKET;
    };
    tell_taken(docket.units_taken(period, most, fixed), taken)
}

// The answer as one number; where the runs were found, `value` is the leaf's value.
fn tell_runs(answer: Result<i64, NoRuns>, value: &mut [i64]) -> usize
    requires few { Few answer }
    requires value_len { length value.old ≡ 1 }
    ensures number { result ≡ runs_number answer }
    ensures value { value.new ≡ value_told answer value.old }
{
    match answer {
        Ok(found) => {
            value[0] = found;
            0
        }
        Err(NoRuns::Question(why)) => unanswered_number(why),
        Err(NoRuns::Stuck(unit)) => 100 + unit,
    }
}

// The value of a price leaf with these multipliers under these statuses, with its runs and how far they fall short: 0, and they stand in `value`, `runs` and `short`;
// 1 where no problem is known; 2 where the question does not fit it, by the length of one of the slices too; 100 + u where unit u, from 1, is the first that is
// stuck. Or TOO_SMALL or NO_DOCKET. Nothing else is changed.
#[unsafe(no_mangle)]
pub extern "C" fn docket_cheapest_runs(
    numbers: &[u64],
    rows: &[u16],
    q: &[u64],
    s: &[u64],
    fixed: &[u8],
    runs: &mut [u64],
    short: &mut [u64],
    value: &mut [i64],
) -> usize
    ensures answer { result ≡ runs_answer numbers.now rows.now q.now s.now fixed.now runs.old short.old value.old }
    ensures runs { runs.new ≡ runs_rows numbers.now rows.now q.now s.now fixed.now runs.old short.old value.old }
    ensures short { short.new ≡ runs_short numbers.now rows.now q.now s.now fixed.now runs.old short.old value.old }
    ensures value { value.new ≡ runs_value numbers.now rows.now q.now s.now fixed.now runs.old short.old value.old }
{
    if !state::is_long(numbers, rows) {
        return TOO_SMALL;
    }
    let Ok(docket) = state::opened_in(numbers, rows) else {
        return NO_DOCKET;
    };
    if value.len() == 1 {
        return tell_runs(docket.cheapest_runs(q, s, fixed, runs, short), value);
    }
    if docket.known {
        return 2;
    }
    1
}

// The answer as one number.
fn forced_number(answer: Result<(), Unanswered>) -> usize
    ensures { result ≡ forced_number answer }
{
    match answer {
        Ok(()) => 0,
        Err(why) => unanswered_number(why),
    }
}

// Each unit's least value at these multipliers under these statuses with the status of each period forced besides: 0, and `values` has the values, unit u's from u times
// twice the periods on, off forced before on forced, and `stuck` 1 where the unit is then stuck, else 0; 1 where no problem is known; 2 where the question does not fit it,
// by the length of one of the slices too. Or TOO_SMALL or NO_DOCKET. Nothing else is changed.
#[unsafe(no_mangle)]
pub extern "C" fn docket_forced_statuses(
    numbers: &[u64],
    rows: &[u16],
    q: &[u64],
    s: &[u64],
    fixed: &[u8],
    values: &mut [i64],
    stuck: &mut [u8],
) -> usize
    ensures answer { result ≡ forced_answer numbers.now rows.now q.now s.now fixed.now values.old stuck.old }
    ensures values { values.new ≡ forced_values numbers.now rows.now q.now s.now fixed.now values.old stuck.old }
    ensures stuck { stuck.new ≡ forced_stuck numbers.now rows.now q.now s.now fixed.now values.old stuck.old }
{
    if !state::is_long(numbers, rows) {
        return TOO_SMALL;
    }
    let Ok(docket) = state::opened_in(numbers, rows) else {
        return NO_DOCKET;
    };
    forced_number(docket.forced_statuses(q, s, fixed, values, stuck))
}

// How many bytes of the output hold the input's listing; or TOO_SMALL, with the output as it was.
#[unsafe(no_mangle)]
pub extern "C" fn docket_listing(input: &[u8], output: &mut [u8]) -> usize
    ensures answer { result ≡ host_answer (listed_of input.now output.old) }
    ensures bytes { output.new ≡ output_of input.now output.old }
{
    list::list(input, output).unwrap_or(TOO_SMALL)
}
