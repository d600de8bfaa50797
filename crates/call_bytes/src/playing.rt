// The calls of the input, one after the other.
use crate::fault::Fault;

// Plays call by call, each with its place from 1 on. `play` says whether one came; at the end of the input none comes, and a fault in it is
// said on standard error.
pub fn play_all<F: FnMut(u64) -> Result<bool, Fault>>(rt: &impl Eprint, program: &str, mut play: F)
    requires { F.IsAlwaysCallable play }
{
    for place in 1..u64::MAX {
        match play(place) {
            Ok(true) => {},
            Ok(false) => return,
            Err(fault) => return fault.complain(rt, program),
        }
    }
}
