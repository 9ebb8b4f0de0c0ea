// Carries out the orders of standard input, one to a line: lodges texts in dockets, asks for reports and about units, and prints a line for
// each text that is lodged under a name and for each thing asked. The orders are `text`, `more`, `fill` and `cut`, which make the text;
// `lodge`, `give`, `ask` and `units`; `fresh`, `keep` and `take`, which say in which docket; and `set`, which makes dockets that no lodging
// makes. The file stdin beside src/ has the cases, and says above them what each order does. A line that is no order is printed, so that the
// file stdout does not fit.
#![tactic(auto)]

ghost use Rattle.std.specs.Prelude.{◌≡◌, length};

use crate::dockets::Dockets;
use crate::orders::Order;

mod dockets;
mod orders;
mod questions;
mod show;
mod texts;
mod words;

// The file number of standard input. It is read by its number: by the runtime that can fail, and rests on more of the C library than `read`.
const STDIN: i32 = 0;

// Room for N bytes: zeros. Written in `main` at its length, such an array is too long for the check.
fn room<const N: usize>() -> [u8; N]
    ensures { N ≡ length result }
{
    [0; N]
}

// Room for the orders, and one byte more, which tells that there are too many.
fn input_room() -> [u8; 65_537]
    ensures { 65537 ≡ length result }
{
    room()
}

// Room for a text that is one byte too long.
fn text_room() -> [u8; 1_048_577]
    ensures { 1048577 ≡ length result }
{
    room()
}

// The order that the line is, if it is one that fits the text, and the text's size after it.
fn read<'a>(line: &'a [u8], size: usize, text: &mut [u8]) -> Option<(Order<'a>, usize)> {
    let order = orders::read(line)?;
    let size = texts::run(order, size, text)?;
    Some((order, size))
}

// Carries out the orders.
fn run(input: &[u8], text: &mut [u8]) {
    let mut dockets = Dockets::fresh();
    let mut size = 0;
    for line in input.split(|b| *b == b'\n') {
        if let Some((order, after)) = read(line, size, text) {
            size = after;
            dockets.run(order, size, text);
        } else {
            show::misread(line);
        }
    }
}

fn main() {
    let mut input = input_room();
    let mut text = text_room();
    let n = io::read_full(STDIN, &mut input);
    if n == input.len() {
        show::misread(b"more than 65536 bytes");
    }
    run(&input[..n], &mut text);
}
