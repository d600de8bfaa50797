// The block sheet's program: it plays a tape, reads the rows of blocks from blocks.bin, fills them in from the book and prints them. What
// it prints is proved up to the buffer (`sheet_in`); what can't be read or written is told on standard error, and then nothing is printed.
#![tactic(auto)]

mod lines;
mod row_bytes;

ghost use Rattle.std.specs.Prelude.{◌*◌, ◌≤◌, length, IfOk};
ghost use Rattle.book.specs.Calls.{notice_bytes};
ghost use Rattle.tape_text.specs.Numbers.{Puts};
ghost use Rattle.block_sheet.specs.RowBytes.{row_length, most_rows};
ghost use Rattle.block_sheet.specs.Lines.{sheet_text_most};
ghost use Rattle.block_sheet.specs.Output.{sheet_output};

use std::io;
use std::rt::Files;

// The most bytes of a sheet, and of its text.
const SHEET_BYTES: usize = 1_792;

const TEXT_BYTES: usize = 6_869;

// Plays a tape, fills in the rows of a sheet, and puts the text.
fn sheet_in(
    calendar: &[u8],
    tape: &[u8],
    blocks: &[u8],
    notices: &mut [u8],
    out: &mut [u8],
) -> usize
    requires blocks_len_bound { length blocks.now ≤ row_length * most_rows }
    requires notice_bytes_in_bounds { notice_bytes ≤ length notices.old }
    requires sheet_text_most_in_bounds { sheet_text_most ≤ length out.old }
    ensures { Puts 0 out.old out.new result
        (sheet_output calendar.now tape.now blocks.now) }
{
    let b = tape_book::played(calendar, tape, notices);
    let after = sheet_calls::filled_sheet(b, row_bytes::rows_of(blocks));
    let number = sheet_calls::number_of(after.answer);
    lines::put_sheet(
        number,
        &after.rows[..blocks.len() / row_bytes::ROW_BYTES],
        out,
    )
}

// The program's name, for what it says on standard error.
const NAME: [u8; 11] = *b"block_sheet";

// Reads the rows of blocks from blocks.bin in the current folder; how many bytes came.
fn read_blocks(files: &impl Files, buffer: &mut [u8]) -> io::Result<usize>
    ensures { IfOk result (λ n. n ≤ length buffer.new) }
{
    let mut file = tape_io::open(files, b"blocks.bin")?;
    Ok(tape_io::fill(&mut file, buffer)?)
}

// The sheet in buffers of its own, written to standard output.
fn print_sheet(rt: &impl Print, calendar: &[u8], tape: &[u8], blocks: &[u8]) -> io::Result<()>
    requires { length blocks.now ≤ row_length * most_rows }
{
    let mut notices = [0u8; book::NOTICE_BYTES];
    let mut out = [0u8; TEXT_BYTES];
    let stop = sheet_in(calendar, tape, blocks, &mut notices, &mut out);
    rt.write_all(&out[0..stop])
}

// Reads the calendar and the tape, and prints the sheet of some rows.
fn fill_in(rt: &HostRuntime, blocks: &[u8])
    requires { length blocks.now ≤ row_length * most_rows }
{
    tape_io::with_tape(rt, &NAME, |calendar, tape| {
        if let Err(error) = print_sheet(rt, calendar, tape, blocks) {
            tape_io::complain(
                rt,
                &NAME,
                b": cannot write to standard output",
                error,
                b": the output is not whole; make room or give another place, and fill the sheet in again\n",
            );
        }
    });
}

// Reads the rows, and fills them in; one byte more than they may have shows that they are too many.
fn main(rt: HostRuntime) {
    let mut blocks = [0u8; SHEET_BYTES + 1];
    let n = match read_blocks(&rt, &mut blocks) {
        Ok(n) => n,
        Err(error) => {
            tape_io::complain(
                &rt,
                &NAME,
                b": cannot read blocks.bin in the current folder",
                error,
                b": nothing was filled in; make it of a sheet's text by sheettext\n",
            );
            return;
        }
    };
    if SHEET_BYTES < n {
        tape_io::say(
            &rt,
            b"block_sheet: blocks.bin has more than 1,792 bytes; nothing was filled in; give at most 64 rows of 28 bytes\n",
        );
        return;
    }
    if n % row_bytes::ROW_BYTES != 0 {
        tape_io::say(
            &rt,
            b"block_sheet: blocks.bin is no multiple of 28 bytes; nothing was filled in; make it of a sheet's text by sheettext\n",
        );
        return;
    }
    fill_in(&rt, &blocks[0..n]);
}
