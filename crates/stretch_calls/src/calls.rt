// The records of a stretch of tape in one call.
ghost use Rattle.std.specs.Prelude.{◌≡◌, ◌/◌, ◌≤◌, ◌<◌, min, length};
ghost use Rattle.book.specs.Laws.{BookKept};
ghost use Rattle.stretch_rules.specs.Stretch.{whole_count, StretchPromised};

use book::Book;
use stretch_rules::{Replies, StretchAnswer};

// How many records are played at once: for so many their numbers of notices are noted, which nobody asks for.
const AT_ONCE: usize = 256;

// How many of the records left are played next.
fn next_many(left: usize, most: usize) -> usize
    ensures { result ≡ min left most }
{
    left.min(most)
}

// Plays the whole records of a stretch on a well-kept book, some at once by the book layer's one loop, as long as the next is sure of its
// 24,576 bytes. The book is not tested again, and each lot's notices stand behind those before it.
fn play_whole(
    calendar: &[u8],
    b: Book,
    tape: &[u8],
    answers: &mut [u8],
    counts: &mut [u16],
    notices: &mut [u8],
) -> Replies
    requires book_kept { BookKept b }
    requires tape_in_bounds { whole_count tape.now ≤ length answers.old }
    requires counts_nonzero { 0 < length counts.old }
    ensures { StretchPromised calendar.now b tape.now result
        answers.old answers.new notices.old notices.new }
{
    let whole = tape.len() / records::RECORD_LENGTH;
    let mut c = b;
    let mut played: usize = 0;
    let mut sent: usize = 0;
    // A `while`: a turn goes on by as many records as the lot has played, which may be fewer than it was given.
    while played < whole {
        let standing = records::RECORD_LENGTH * sent;
        if notices.len() - standing < book::NOTICE_BYTES {
            break;
        }
        let from = records::RECORD_LENGTH * played;
        let end = played + next_many(whole - played, counts.len());
        let lot = book_player::play(
            calendar,
            c,
            &tape[from..],
            &mut answers[played..end],
            counts,
            &mut notices[standing..],
        );
        played += lot.played;
        sent += lot.sent;
        c = lot.book;
    }
    Replies {
        answer: StretchAnswer::Taken,
        played,
        sent,
        book: c,
    }
}

// The records of a stretch of tape in one call: whole ones from its start, each into the notice bytes still free. The book is tested once.
pub fn record_calls(
    calendar: &[u8],
    b: Book,
    tape: &[u8],
    answers: &mut [u8],
    notices: &mut [u8],
) -> Replies
    ensures { StretchPromised calendar.now b tape.now result
        answers.old answers.new notices.old notices.new }
{
    let whole = tape.len() / records::RECORD_LENGTH;
    if answers.len() < whole {
        return Replies {
            answer: StretchAnswer::FewAnswers,
            played: 0,
            sent: 0,
            book: b,
        };
    }
    if notices.len() < book::NOTICE_BYTES {
        return Replies {
            answer: StretchAnswer::Taken,
            played: 0,
            sent: 0,
            book: b,
        };
    }
    if !book_files::book_kept(b) {
        crate::answers::answer_unkept(whole, answers);
        return Replies {
            answer: StretchAnswer::Taken,
            played: whole,
            sent: 0,
            book: b,
        };
    }
    let mut counts = [0u16; AT_ONCE];
    play_whole(calendar, b, tape, answers, &mut counts, notices)
}
