// The records of a stretch of tape, played on a book that stays in its place.
ghost use Rattle.std.specs.Prelude.{◌≡◌, ◌+◌, ◌≤◌, ◌<◌, min, length};
ghost use Rattle.records.specs.Layout.{record_length};
ghost use Rattle.book.specs.Laws.{BookKept};
ghost use Rattle.book.specs.CallsInRow.{records_of, calls_in_row, Plays};

use crate::dispatch::Task;
use book::{Book, Playback};
use premise::{Answer, Refusal};
use premise_notices::Outbox;

// Where a record ends that starts before a tape's end: the last may be short.
pub fn record_end(from: usize, length: usize) -> usize
    requires { from < length }
    ensures { result ≡ min (from + record_length) length }
{
    from + (length - from).min(records::RECORD_LENGTH)
}

// Plays the records of a stretch of tape, one call each: as many as there are answers to note, and as long as any record's notices surely
// find room. A refusal leaves the book; a record on a premise that is held stores one file, a mark the files that it changes, and the
// totals of waiting orders move with each of these and for no other; only a create and a retire, which are rare, move files. They move no
// total: a new file holds no order, and one that is taken out has none open.
pub fn play(
    calendar: &[u8],
    b: Book,
    tape: &[u8],
    answers: &mut [u8],
    counts: &mut [u16],
    notices: &mut [u8],
) -> Playback
    requires book_kept { BookKept b }
    requires answers_in_bounds { length answers.old ≤ length counts.old }
    ensures { Plays (calls_in_row calendar.now (length notices.old) b
        (records_of (length answers.old) tape.now)) result answers.old answers.new
        counts.old counts.new notices.old notices.new }
{
    let mut c = b;
    let mut played: usize = 0;
    let mut sent: usize = 0;
    let mut from: usize = 0;
    let mut last: Answer = Ok(());
    while played < answers.len() {
        if tape.len() <= from {
            break;
        }
        if notices.len() - records::RECORD_LENGTH * sent < book::NOTICE_BYTES {
            break;
        }
        let to = record_end(from, tape.len());
        let bytes = &tape[from..to];
        let reading = record_bytes::read_record(bytes);
        let wanted = crate::dispatch::premise_in(reading);
        let count = c.count;
        let standing = sent;
        // where the premise stands or would stand, and the number that stands there
        let held = &c.files[..count];
        let at = held.partition_point(|f| f.premise < wanted);
        let there = held.get(at).map_or(0, |f| f.premise);
        let task = crate::dispatch::task_of(reading, c.today, count, at, there);
        last = Ok(());
        match task {
            Task::Refused(refusal) => {
                last = Err(refusal);
            }
            Task::OnFile(at, r) => {
                let old = c.files[at];
                let mut out = Outbox {
                    buffer: notices,
                    sent,
                };
                last = premise_steps::on_file(calendar, c.today, &mut c.files[at], r, &mut out);
                sent = out.sent;
                c.waiting = book_files::moved(c.waiting, &old, &c.files[at]);
            }
            Task::NextDay(day) => {
                let business = days::is_business_day(calendar, day);
                let ends = days::last_days(calendar, day);
                c.today = day;
                // by place: a turn stores to the file that it has read
                for place in 0..count {
                    let file = &c.files[place];
                    let end = ends[file.window as usize - 1];
                    if premise_steps::mark_changes_file(business, day, end, file) {
                        let before = *file;
                        let mut out = Outbox {
                            buffer: notices,
                            sent,
                        };
                        premise_steps::mark(calendar, day, end, &mut c.files[place], &mut out);
                        sent = out.sent;
                        c.waiting = book_files::moved(c.waiting, &before, &c.files[place]);
                    }
                }
            }
            Task::Opens(at, r) => {
                c.files.copy_within(at..count, at + 1);
                c.files[at] = premise_file::new_file(r);
                c.count = count + 1;
            }
            Task::Closes(at) => {
                if premise_file::any_open(c.files[at].held()) {
                    last = Err(Refusal::OrderOpen);
                } else {
                    let left = count - 1;
                    c.files.copy_within(at + 1..count, at);
                    c.files[left] = premise_file::blank_file();
                    c.count = left;
                }
            }
        }
        answers[played] = premise_rows::number_of(last);
        counts[played] = (sent - standing) as u16;
        played += 1;
        from = to;
    }
    Playback {
        played,
        sent,
        last,
        book: c,
    }
}
