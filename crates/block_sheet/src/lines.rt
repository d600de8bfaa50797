// The lines of a sheet as bytes: the answer, and then a line for each row.
ghost use Rattle.std.specs.Prelude.{◌+◌, ◌≤◌, length};
ghost use Rattle.tape_text.specs.Numbers.{Puts};
ghost use Rattle.block_sheet.specs.RowBytes.{most_rows};
ghost use Rattle.block_sheet.specs.Lines.{row_line, row_lines, sheet_text, sheet_text_most};

use sheet_rules::BlockRow;

// The letter that begins a row's line.
const BLOCK: u8 = b'b';

const NEWLINE: u8 = b'\n';

// The line of a row: block, first and last premise, files, dark ones.
#[tactic(auto, unfolding(crate::specs::Lines::row_line))]
fn put_row(row: &BlockRow, start: usize, out: &mut [u8]) -> usize
    requires { start + length (row_line row.now) ≤ length out.old }
    ensures { Puts start out.old out.new result (row_line row.now) }
{
    let numbers = [
        row.block as u64,
        row.first,
        row.last,
        row.files as u64,
        row.dark as u64,
    ];
    tape_text::put_lettered(BLOCK, &numbers, start, out)
}

// The lines of the rows.
fn put_rows(rows: &[BlockRow], start: usize, out: &mut [u8]) -> usize
    requires { start + length (row_lines rows.now) ≤ length out.old }
    ensures { Puts start out.old out.new result (row_lines rows.now) }
{
    let mut at = start;
    for row in rows {
        at = put_row(row, at, out);
    }
    at
}

// The answer, and the lines of the rows.
pub fn put_sheet(answer: u8, rows: &[BlockRow], out: &mut [u8]) -> usize
    requires rows_le_most_rows { length rows.now ≤ most_rows }
    requires sheet_text_most_in_bounds { sheet_text_most ≤ length out.old }
    ensures { Puts 0 out.old out.new result (sheet_text answer rows.now) }
{
    let stop = tape_text::put_number(answer as u64, 0, out);
    out[stop] = NEWLINE;
    put_rows(rows, stop + 1, out)
}
