// compare_tapes OURS THEIRS: says in one line whether two tapes agree premise by premise (document 02, change 10):
//
//   yes 0      every premise has the same records and day marks on both
//   no 0       the day marks differ
//   no P       the day marks don't, and P is the smallest premise at which the tapes differ
//
// What is said is proved in `tape_agreement`; here the tapes are read and handed over. A tape that is not read whole gets no answer: one
// about its beginning would say nothing of the tape. What is wrong, and what to do, goes to standard error.
#![tactic(auto)]

ghost use Rattle.std.specs.Prelude.{◌≡◌, ◌++◌, ◌+◌, ◌≤◌, length, drop, IfOk, IfSome};
ghost use Rattle.compare_tapes.specs.Sizes.{room_for_tape};

use std::fs::File;
use std::io;
use tape_agreement_rules::Agreement;
use tape_io::Cut;

// The longest tape that is taken: 43,690 records.
const TAPE_BYTES: usize = 1_048_560;

// The room for tapes as the tape program plays them. Most are no longer, and are spared the time that a room for the longest takes.
const SHORT_ROOM: usize = 65_536;

// Whose tape is meant, by the place of the word that names it.
#[derive(Debug, Clone, Copy, PartialEq, Eq)]
enum Side {
    Ours = 1,
    Theirs = 2,
}

impl Side {
    // How a message about its tape begins.
    fn said(self) -> &'static [u8] {
        match self {
            Side::Ours => b"compare_tapes: our tape",
            Side::Theirs => b"compare_tapes: their tape",
        }
    }
}

// A buffer for the longest tape and one byte more, which shows that a tape is too long. It says its length alone, so that no proof counts
// its zeros off.
fn room_for_tape() -> [u8; TAPE_BYTES + 1]
    ensures { room_for_tape ≡ length result }
{
    [0; TAPE_BYTES + 1]
}

// Says that a tape can't be read, and why.
fn complain(rt: &HostRuntime, side: Side, error: io::Error) {
    tape_io::fail(rt, side.said(), error);
    tape_io::say(
        rt,
        b"compare_tapes: nothing was compared; give two tapes that can be read, as in: compare_tapes OURS THEIRS\n",
    );
}

// Says that a tape is too long.
fn complain_of_length(rt: &HostRuntime, side: Side) {
    tape_io::say(rt, side.said());
    tape_io::say(
        rt,
        b" has more than the 1048560 bytes that are taken; nothing was compared; give tapes of at most 43690 records\n",
    );
}

// The tape of a name, opened.
fn open_named(rt: &HostRuntime, side: Side) -> io::Result<File> {
    let mut path = [0u8; tape_io::WORD_BYTES];
    let n = tape_io::file_name(rt, side as usize, &mut path)?;
    tape_io::open(rt, &path[..n])
}

// Opens the tape of a side; where that fails, it is said.
fn open_tape(rt: &HostRuntime, side: Side) -> Option<File> {
    match open_named(rt, side) {
        Ok(tape) => Some(tape),
        Err(error) => {
            complain(rt, side, error);
            None
        }
    }
}

// Puts bytes at the front of a buffer; the rest stays.
fn put_front(bytes: &[u8], buffer: &mut [u8])
    requires { length bytes.now ≤ length buffer.old }
    ensures { buffer.new ≡ bytes.now ++ drop (length bytes.now) buffer.old }
{
    buffer[..bytes.len()].copy_from_slice(bytes);
}

// Reads on behind the bytes that stand at the front of a buffer; how many stand there then.
fn read_behind(tape: &mut File, done: usize, buffer: &mut [u8]) -> Result<usize, Cut>
    requires { done ≤ length buffer.old }
    ensures { IfOk result (λ n. n ≤ length buffer.new) }
{
    let rest = &mut buffer[done..];
    let more = tape_io::fill(tape, rest)?;
    Ok(done + more)
}

// The whole of a tape whose first bytes were read, in a room for the longest: how long it is, or nothing where
// it is said what is wrong with it.
fn read_whole(
    rt: &HostRuntime,
    side: Side,
    tape: &mut File,
    first: &[u8],
    room: &mut [u8],
) -> Option<usize>
    requires { length first.now ≤ length room.old }
    ensures { IfSome result (λ n. n ≤ length room.new) }
{
    put_front(first, room);
    match read_behind(tape, first.len(), room) {
        Ok(n) if n <= TAPE_BYTES => Some(n),
        Ok(_) => {
            complain_of_length(rt, side);
            None
        }
        Err(cut) => {
            complain(rt, side, cut.error);
            None
        }
    }
}

// Prints the answer's line.
fn print(rt: &impl Print, answer: Agreement) -> io::Result<()> {
    match answer {
        Agreement::Same => rt.write_all(b"yes 0\n"),
        Agreement::MarksDiffer => rt.write_all(b"no 0\n"),
        Agreement::Differ(premise) => println!(rt; "no {premise}"),
    }
}

// Compares two tapes and prints what is said.
fn answer(rt: &HostRuntime, ours: &[u8], theirs: &[u8]) {
    if let Err(error) = print(rt, tape_agreement::compare(ours, theirs)) {
        tape_io::fail(rt, b"compare_tapes: cannot write to standard output", error);
        tape_io::say(
            rt,
            b"compare_tapes: the answer is not whole; make room or give another place, and compare again\n",
        );
    }
}

// Reads their tape whole in a room of its own, and compares. Not put into its caller, whose room then takes no time where it is not needed.
#[inline(never)]
fn compare_with(rt: &HostRuntime, ours: &[u8], their_tape: &mut File, theirs: &[u8])
    requires { length theirs.now ≤ room_for_tape }
{
    let mut room = room_for_tape();
    if let Some(n) = read_whole(rt, Side::Theirs, their_tape, theirs, &mut room) {
        answer(rt, ours, &room[..n]);
    }
}

// Compares tapes of which one at least did not end in a short room: ours is read whole in a room of its own, and then theirs. Not put into
// its caller either.
#[inline(never)]
fn compare_long(
    rt: &HostRuntime,
    our_tape: &mut File,
    ours: &[u8],
    their_tape: &mut File,
    theirs: &[u8],
)
    requires { (length ours.now ≤ room_for_tape) × (length theirs.now ≤ room_for_tape) }
{
    let mut room = room_for_tape();
    if let Some(n) = read_whole(rt, Side::Ours, our_tape, ours, &mut room) {
        compare_with(rt, &room[..n], their_tape, theirs);
    }
}

// The first bytes of a tape: how many came, or nothing where it is said that it can't be read.
fn read_short(rt: &HostRuntime, side: Side, tape: &mut File, room: &mut [u8]) -> Option<usize>
    ensures { IfSome result (λ n. n ≤ length room.new) }
{
    match tape_io::fill(tape, room) {
        Ok(n) => Some(n),
        Err(cut) => {
            complain(rt, side, cut.error);
            None
        }
    }
}

// The same by way of a short room, as far as both tapes end in it.
fn compare_open(rt: &HostRuntime, our_tape: &mut File, their_tape: &mut File) {
    let mut ours = [0u8; SHORT_ROOM];
    let Some(m) = read_short(rt, Side::Ours, our_tape, &mut ours) else {
        return;
    };
    if m == SHORT_ROOM {
        compare_long(rt, our_tape, &ours[..m], their_tape, b"");
        return;
    }
    let mut theirs = [0u8; SHORT_ROOM];
    let Some(n) = read_short(rt, Side::Theirs, their_tape, &mut theirs) else {
        return;
    };
    if n == SHORT_ROOM {
        compare_long(rt, our_tape, &ours[..m], their_tape, &theirs[..n]);
        return;
    }
    answer(rt, &ours[..m], &theirs[..n]);
}

fn main(rt: HostRuntime) {
    if tape_io::count_words(&rt) != 3 {
        tape_io::say(
            &rt,
            b"compare_tapes: give two tapes, ours and theirs, as in: compare_tapes OURS THEIRS\n",
        );
        return;
    }
    let Some(mut ours) = open_tape(&rt, Side::Ours) else {
        return;
    };
    let Some(mut theirs) = open_tape(&rt, Side::Theirs) else {
        return;
    };
    compare_open(&rt, &mut ours, &mut theirs);
}
