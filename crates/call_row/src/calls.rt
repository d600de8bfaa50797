// The records of a stretch of tape, a record call each.
ghost use Rattle.std.specs.Prelude.{min, List, length};
ghost use Rattle.book.specs.CallsInRow.{records_of};
ghost use Rattle.demands.specs.Demand3.{Made};
ghost use Rattle.call_row_rules.specs.CallsMade.{CallsMade};

use book::{Book, Playback, Reply};

// Makes a record call for each record of a stretch, on the book that the one before returned and into the notice bytes still free: as many
// as there are answers and counts to note, and as long as a call is sure of its 24,576 bytes.
pub fn calls_in_row(
    calendar: &[u8],
    b: Book,
    tape: &[u8],
    answers: &mut [u8],
    counts: &mut [u16],
    notices: &mut [u8],
) -> Playback
    ensures { (made : List Made) × CallsMade calendar.now b
        (records_of (min (length answers.old) (length counts.old)) tape.now) result
        answers.old answers.new counts.old counts.new
        notices.old notices.new made }
{
    // What the last call returned is the variable of the loop: a book of its own would be filled by one copy more a call.
    let mut reply = Reply {
        answer: Ok(()),
        sent: 0,
        book: b,
    };
    let mut played: usize = 0;
    let mut sent: usize = 0;
    let mut from: usize = 0;
    while played < answers.len() {
        if counts.len() <= played {
            break;
        }
        if tape.len() <= from {
            break;
        }
        let standing = records::RECORD_LENGTH * sent;
        if notices.len() - standing < book::NOTICE_BYTES {
            break;
        }
        let to = book_player::record_end(from, tape.len());
        let c = reply.book;
        reply = book_calls::record_call(calendar, c, &tape[from..to], &mut notices[standing..]);
        let answer = reply.answer;
        answers[played] = premise_rows::number_of(answer);
        counts[played] = reply.sent as u16;
        sent += reply.sent;
        played += 1;
        from = to;
    }
    Playback {
        played,
        sent,
        last: reply.answer,
        book: reply.book,
    }
}
