// A stretch of a tape: played, and then its text put.
ghost use Rattle.std.specs.Prelude.{◌≤◌, length};
ghost use Rattle.book.specs.Laws.{BookKept};
ghost use Rattle.book.specs.CallsInRow.{calls_in_row, records_of, Plays as PlaysInRow};
ghost use Rattle.tape_output.specs.Output.{tape_most};
ghost use Rattle.tape_output.specs.Stretches.{stretch, left, Ready, Roomy, Plays};

use book::{Book, Playback};
use tape_output::{Playing, Stretch};
use tape_text::Text;

// Who plays the records of a stretch in a row. Each promises the same, so that it is no matter which one plays a tape.
pub trait Player {
    fn play(
        calendar: &[u8],
        b: Book,
        tape: &[u8],
        answers: &mut [u8],
        counts: &mut [u16],
        notices: &mut [u8],
    ) -> Playback
        requires book_kept { BookKept b }
        requires answers_in_bounds { length answers.old ≤ length counts.old }
        ensures { PlaysInRow (calls_in_row calendar.now (length notices.old) b
            (records_of (length answers.old) tape.now)) result answers.old answers.new
            counts.old counts.new notices.old notices.new };
}

// One loop over the records, which leaves the book in its place.
pub struct Loop;

impl Player for Loop {
    fn play(
        calendar: &[u8],
        b: Book,
        tape: &[u8],
        answers: &mut [u8],
        counts: &mut [u16],
        notices: &mut [u8],
    ) -> Playback {
        book_player::play(calendar, b, tape, answers, counts, notices)
    }
}

// (The buffers stay four parameters: a player is lent three of them, and a struct that lends them on is no plainer.)
//
// A stretch of a tape: its records are played in a row, which notes what came of each; then their text is put, and the end where no record
// is left.
pub fn play_on<P: Player>(
    calendar: &[u8],
    p: Playing,
    tape: &[u8],
    answers: &mut [u8],
    counts: &mut [u16],
    notices: &mut [u8],
    out: &mut [u8],
) -> Stretch
    requires { Ready p × (length tape.now ≤ tape_most) × Roomy answers.old counts.old notices.old out.old }
    ensures { Plays 0 (stretch calendar.now (length out.old) p (left p tape.now)) result
        out.old out.new }
{
    let from = (records::RECORD_LENGTH * p.reader.place).min(tape.len());
    let course = P::play(calendar, p.book, &tape[from..], answers, counts, notices);
    let mut text = Text::new(out);
    let reader = crate::stretch_text::put_stretch(
        p.reader,
        course.played,
        answers,
        counts,
        notices,
        &mut text,
    );
    let playing = Playing {
        reader,
        book: course.book,
    };
    let done = crate::ending::close(&playing, tape, &mut text);
    Stretch {
        playing,
        stop: text.at,
        done,
    }
}
