// The rows of a sheet from their bytes.
ghost use Rattle.std.specs.Prelude.{◌≡◌, ◌*◌, ◌/◌, ◌≤◌, length};
ghost use Rattle.block_sheet.specs.RowBytes.{row_length, most_rows, row_of, rows_of, padded};

use record_bytes::{eight, four};
use sheet_rules::BlockRow;

// How long a row is, and how many rows there are at most.
pub const ROW_BYTES: usize = 28;

pub const MOST_ROWS: usize = 64;

// The places of the fields.
const BLOCK_AT: usize = 0;

const FIRST_AT: usize = 4;

const LAST_AT: usize = 12;

const FILES_AT: usize = 20;

const DARK_AT: usize = 24;

// A row that is sound, for the places that the sheet does not use: it changes no answer, and is not printed.
const SPARE: BlockRow = BlockRow {
    block: 1,
    first: 0,
    last: 0,
    files: 0,
    dark: 0,
};

// The row of some bytes.
#[tactic(auto, unfolding(crate::specs::RowBytes::row_of))]
fn row_of(bytes: &[u8]) -> BlockRow
    requires { row_length ≤ length bytes.now }
    ensures { result ≡ row_of bytes.now }
{
    BlockRow {
        block: four(bytes, BLOCK_AT),
        first: eight(bytes, FIRST_AT),
        last: eight(bytes, LAST_AT),
        files: four(bytes, FILES_AT),
        dark: four(bytes, DARK_AT),
    }
}

// The rows of some bytes, and spare ones behind them.
pub fn rows_of(bytes: &[u8]) -> [BlockRow; MOST_ROWS]
    requires { length bytes.now ≤ row_length * most_rows }
    ensures { result ≡ padded (rows_of (length bytes.now / row_length) bytes.now) }
{
    let mut rows = [SPARE; MOST_ROWS];
    // the places are counted: what `zip` lends of the rows is not known to a proof once it is given back
    for (i, row) in bytes.chunks_exact(ROW_BYTES).enumerate() {
        rows[i] = row_of(row);
    }
    rows
}
