// What is to be done with a record, by what it says, T, and where its premise stands among the files or would stand: rows 3 to 6 and 15,
// and which files it touches. The book itself is not handed over for it.
ghost use Rattle.std.specs.Prelude.{◌≡◌, ◌≤◌};
ghost use Rattle.days.specs.Days.{last_day};
ghost use Rattle.book_player.specs.Tasks.{premise_in, on_new, on_held, on_mark, task_of};

use premise::Refusal;
use records::{Record, record_kind};

// What is to be done with a record.
#[derive(Clone, Copy)]
pub enum Task {
    // It is refused, whatever the files hold.
    Refused(Refusal),
    // It creates a premise, whose file is to stand at the place.
    Opens(usize, Record),
    // It retires the premise whose file stands at the place.
    Closes(usize),
    // It leaves its premise's file in the book (kinds 3 to 9, 11 and 12), and that stands at the place.
    OnFile(usize, Record),
    // It marks the next day, which is named.
    NextDay(u16),
}

// The premise that a record names; 0, which is no premise's number, where it names none.
pub fn premise_in(reading: Option<Record>) -> u64
    ensures { result ≡ premise_in reading }
{
    reading.map_or(0, |r| r.premise)
}

// A create: rows 5 and 6.
fn on_new(r: Record, count: usize, at: usize, there: u64) -> Task
    ensures { result ≡ on_new r count at there }
{
    if there == r.premise {
        return Task::Refused(Refusal::PremiseHeld);
    }
    if count == book::MOST_FILES {
        return Task::Refused(Refusal::BookFull);
    }
    Task::Opens(at, r)
}

// A record that needs a premise: row 4.
fn on_held(r: Record, at: usize, there: u64) -> Task
    ensures { result ≡ on_held r at there }
{
    if there != r.premise {
        return Task::Refused(Refusal::NoSuchPremise);
    }
    if r.kind == record_kind::RETIRE {
        return Task::Closes(at);
    }
    Task::OnFile(at, r)
}

// A day mark: row 15.
fn on_mark(day: u16, today: u16) -> Task
    requires { today ≤ last_day }
    ensures { result ≡ on_mark today day }
{
    if day == today + 1 {
        return Task::NextDay(day);
    }
    Task::Refused(Refusal::NotNextDay)
}

// What is to be done with a record whose premise stands at a place or would stand there: it is held exactly if the number there is its own.
pub fn task_of(reading: Option<Record>, today: u16, count: usize, at: usize, there: u64) -> Task
    requires { today ≤ last_day }
    ensures { result ≡ task_of today count at there reading }
{
    let Some(r) = reading else {
        return Task::Refused(Refusal::MalformedRecord);
    };
    // Document 01 names this form: one `match` over the kind, with ranges.
    match r.kind {
        record_kind::CREATE => on_new(r, count, at, there),
        record_kind::RETIRE..=record_kind::REPLY
        | record_kind::DATE_CHANGE..=record_kind::AGREEMENT => on_held(r, at, there),
        _ => on_mark(r.day, today),
    }
}
