// The text of records in a row, put behind a text from what was noted of them.
ghost use Rattle.std.specs.Prelude.{◌≡◌, ◌+◌, ◌*◌, ◌≤◌, length, take, drop};
ghost use Rattle.records.specs.Layout.{record_length};
ghost use Rattle.records.specs.Notices.{rows};
ghost use Rattle.tape_text.specs.Numbers.{Puts};
ghost use Rattle.tape_reader.specs.Counts.{counted, Within};
ghost use Rattle.tape_output.specs.Output.{row_lines};
ghost use Rattle.tape_output.specs.Stretches.{counted_all};
ghost use Rattle.tape_player.specs.Noted.{noted_text, noted_texts, Printable};

use records::RECORD_LENGTH;
use tape_reader::Reader;
use tape_text::Text;

// The lines of the first n notices of a buffer.
fn put_notices(notices: &[u8], n: usize, text: &mut Text)
    requires { (record_length * n ≤ length notices.now)
        × (text.old.at + length (row_lines (rows n notices.now)) ≤ length text.old.out.now) }
    ensures same_buffer { text.new.out.ghost_name ≡ text.old.out.ghost_name }
    ensures puts { Puts text.old.at text.old.out.now text.new.out.now text.new.at
        (row_lines (rows n notices.now)) }
{
    for notice in notices[..RECORD_LENGTH * n].chunks_exact(RECORD_LENGTH) {
        text.notice(notice);
    }
}

// A record's text: the reader counts the record, and its line and those of its notices are put.
fn put_noted(reader: Reader, answer: u8, n: usize, notices: &[u8], text: &mut Text) -> Reader
    requires { Within reader × (record_length * n ≤ length notices.now)
        × (text.old.at + length (noted_text (reader.place + 1) answer n notices.now) ≤ length text.old.out.now) }
    ensures reader_value { result ≡ counted reader answer }
    ensures same_buffer { text.new.out.ghost_name ≡ text.old.out.ghost_name }
    ensures puts { Puts text.old.at text.old.out.now text.new.out.now text.new.at
        (noted_text (reader.place + 1) answer n notices.now) }
{
    let next = reader.advanced(answer);
    text.record(next.place, answer, n);
    put_notices(notices, n, text);
    next
}

// The text of the records that were played, one after another: each has its notices behind those of the one before. The reader has counted
// them.
pub fn put_stretch(
    reader: Reader,
    played: usize,
    answers: &[u8],
    counts: &[u16],
    notices: &[u8],
    text: &mut Text,
) -> Reader
    requires printable { Printable reader played answers.now counts.now notices.now
        (drop text.old.at text.old.out.now) }
    requires within { text.old.at ≤ length text.old.out.now }
    ensures reader_value { result ≡ counted_all reader (take played answers.now) }
    ensures same_buffer { text.new.out.ghost_name ≡ text.old.out.ghost_name }
    ensures puts { Puts text.old.at text.old.out.now text.new.out.now text.new.at
        (noted_texts reader.place (take played answers.now) (take played counts.now) notices.now) }
{
    let mut next = reader;
    let mut left = notices;
    for (answer, count) in answers[..played].iter().zip(&counts[..played]) {
        let n = *count as usize;
        next = put_noted(next, *answer, n, left, text);
        left = &left[RECORD_LENGTH * n..];
    }
    next
}
