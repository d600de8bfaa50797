// What a call answers.
ghost use Rattle.std.specs.Prelude.{◌≡◌};
ghost use Rattle.lists.specs.Search.{all_of};
ghost use Rattle.sheet_rules.specs.Sheet.{number, is_sound, sheet_answer};

use book::Book;
use sheet_rules::{BlockRow, SheetRefusal};

// Whether a row has a block, and a first premise that is not above its last.
#[tactic(auto, unfolding(sheet_rules::specs::Sheet::row_sound))]
fn is_sound(row: &BlockRow) -> bool
    ensures { result ≡ is_sound row.now }
{
    row.block != 0 && row.first <= row.last
}

// Whether every row is sound.
fn are_sound(rows: &[BlockRow]) -> bool
    ensures { result ≡ all_of is_sound rows.now }
{
    rows.iter().all(|row| is_sound(row))
}

// The answer of a call on some rows.
#[tactic(auto, unfolding(sheet_rules::specs::Sheet::sheet_answer))]
pub fn judge(b: &Book, rows: &[BlockRow]) -> Result<(), SheetRefusal>
    ensures { result ≡ sheet_answer b.now rows.now }
{
    if !book_files::book_kept(*b) {
        return Err(SheetRefusal::NotWellKept);
    }
    if !are_sound(rows) {
        return Err(SheetRefusal::UnsoundRow);
    }
    Ok(())
}

// The number of a refusal. (Cast within the arm of `number_of` a variant gives no proof its name.)
#[tactic(auto, unfolding(sheet_rules::specs::Sheet::number))]
fn number_refused(refusal: SheetRefusal) -> u8
    ensures { result ≡ number (Err refusal) }
{
    refusal as u8
}

// The number of an answer.
#[tactic(auto, unfolding(sheet_rules::specs::Sheet::number))]
pub fn number_of(answer: Result<(), SheetRefusal>) -> u8
    ensures { result ≡ number answer }
{
    match answer {
        Ok(()) => 0,
        Err(refusal) => number_refused(refusal),
    }
}
