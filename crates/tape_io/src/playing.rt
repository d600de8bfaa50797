// A tape played from its bytes, and its text written to standard output. The work stands in `tape_player`, which is handed bytes.
ghost use Rattle.std.specs.Prelude.{◌≡◌, ◌≤◌, length, take};
ghost use Rattle.tape_output.specs.Output.{calendar_most, tape_most};

use std::io;
use tape_player::Player;

// How many bytes of a calendar and of a tape are read.
pub const CALENDAR_BYTES: usize = 4_096;

pub const TAPE_BYTES: usize = 65_520;

// A stretch: at most so many records, the notice bytes of two calls, and room for the text of both with the end.
const STRETCH_RECORDS: usize = 256;

const STRETCH_NOTICES: usize = 49_152;

const STRETCH_TEXT: usize = 147_456;

// The days of a calendar that count. It and the next are two, with a definition for each constant: the edits `calendar_cut_a_day_early` and
// `tape_cut_a_record_early` are refused by what they promise.
fn days_read(calendar: &[u8]) -> &[u8]
    ensures { result.now ≡ take calendar_most calendar.now }
{
    &calendar[..calendar.len().min(CALENDAR_BYTES)]
}

// The bytes of a tape that are played.
fn bytes_played(tape: &[u8]) -> &[u8]
    ensures { result.now ≡ take tape_most tape.now }
{
    &tape[..tape.len().min(TAPE_BYTES)]
}

// Plays a tape by a calendar, neither longer than what counts of it, and writes its text to standard output, stretch by stretch, until a
// write fails.
fn play_in<P: Player>(rt: &impl Print, days: &[u8], records: &[u8]) -> io::Result<()>
    requires calendar_len_bound { length days.now ≤ calendar_most }
    requires tape_len_bound { length records.now ≤ tape_most }
{
    let mut answers = [0u8; STRETCH_RECORDS];
    let mut counts = [0u16; STRETCH_RECORDS];
    let mut notices = [0u8; STRETCH_NOTICES];
    let mut out = [0u8; STRETCH_TEXT];
    let mut p = tape_output::start();
    loop {
        let stretch = tape_player::play_on::<P>(
            days,
            p,
            records,
            &mut answers,
            &mut counts,
            &mut notices,
            &mut out,
        );
        rt.write_all(&out[..stretch.stop])?;
        if stretch.done {
            return Ok(());
        }
        p = stretch.playing;
    }
}

// Plays the first bytes of a tape by the first of a calendar and writes its text to standard output, until a write fails. It asks nothing:
// the buffers are its own, and a longer calendar or tape is cut here and not by who calls it.
pub fn play<P: Player>(rt: &impl Print, calendar: &[u8], tape: &[u8]) -> io::Result<()> {
    let days = days_read(calendar);
    let records = bytes_played(tape);
    play_in::<P>(rt, days, records)
}
