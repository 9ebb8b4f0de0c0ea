// The listing program: lodges the texts of standard input in turn in one fresh docket, and prints a line for each answer and then
// the report.
#![tactic(auto)]

ghost use Rattle.std.specs.Prelude.{◌≡◌, length};

// The file number of standard input. It is read by its number, and what is listed is written so: by the runtime both can fail, and rest on more of the C library than `read` and
// `write`.
const STDIN: i32 = 0;

// The file number of standard output.
const STDOUT: i32 = 1;

// Room for N bytes: zeros. Written in `main` at its length, such an array is too long for the check.
fn room<const N: usize>() -> [u8; N]
    ensures { N ≡ length result }
{
    [0; N]
}

// Room for the most bytes that are listed and one more, which tells that there are too many.
fn input_room() -> [u8; 65_537]
    ensures { 65537 ≡ length result }
{
    room()
}

// Room for every listing.
fn output_room() -> [u8; 1_048_576]
    ensures { 1048576 ≡ length result }
{
    room()
}

fn main() {
    let mut input = input_room();
    let mut output = output_room();
    let n = io::read_full(STDIN, &mut input);
    if let Some(k) = list::list(&input[..n], &mut output) {
        io::write_all(STDOUT, &output[..k]);
    }
}
