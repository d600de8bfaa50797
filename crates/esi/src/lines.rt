// A look-up's line, written to a buffer behind what stands there.
ghost use Rattle.std.specs.Prelude.{◌+◌, ◌≤◌, length};
ghost use Rattle.esi.specs.Lines.{line_most};

use esi_rules::Refusal;

// The most bytes of a line: two numbers of at most 20 digits, a space and the line's end.
pub const LINE_MOST: usize = 42;

const SPACE: u8 = b' ';

const NEWLINE: u8 = b'\n';

// The decimal digits of a number.
fn put_number(n: u64, start: usize, out: &mut [u8]) -> usize
    requires { start + 20 ≤ length out.old }
    ensures { result ≤ start + 20 }
{
    tape_text::put_number(n, start, out)
}

// The answer's number and the premise number.
pub fn put_line(answer: Result<u64, Refusal>, start: usize, out: &mut [u8]) -> usize
    requires { start + line_most ≤ length out.old }
    ensures { result ≤ start + line_most }
{
    let number = esi_directory::number_of(answer);
    let space = put_number(number as u64, start, out);
    out[space] = SPACE;
    let premise = esi_directory::given_back(answer);
    let end = put_number(premise, space + 1, out);
    out[end] = NEWLINE;
    end + 1
}
