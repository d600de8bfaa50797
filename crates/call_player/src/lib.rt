// A tape played by record calls: who plays the records of a stretch so. `tape_player::play_on` plays by him as by its own loop.
#![tactic(auto)]

use book::{Book, Playback};
use tape_player::Player;

// A record call for each record, and nothing else.
pub struct Calls;

impl Player for Calls {
    fn play(
        calendar: &[u8],
        b: Book,
        tape: &[u8],
        answers: &mut [u8],
        counts: &mut [u16],
        notices: &mut [u8],
    ) -> Playback {
        call_row::calls_in_row(calendar, b, tape, answers, counts, notices)
    }
}
