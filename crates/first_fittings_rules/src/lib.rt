// Change 9 of document 02: a converter each way between the first fittings' records of 20 bytes, each field high byte first, and ours of 24
// bytes, low byte first. Here stand its types; what a call gives, and the theorem that nothing is lost there and back, stand in specs/.
// Only lengths and the last four bytes of our records are judged, so that a tape goes through whatever its records say.
#![tactic(auto)]

// Why a tape is refused, and the number that says so. A tape that is converted has the count of the bytes
// written in its place: 0 to say, and `Ok` here.
#[derive(Debug, Clone, Copy, PartialEq, Eq)]
pub enum Refusal {
    // the input is no whole number of records
    NotWhole = 23,
    // the output buffer is shorter than the converted tape
    ShortBuffer = 24,
    // one of our records has a byte in 20 to 23 that is not zero
    LastBytesUsed = 25,
}

// How many bytes a record has, with the first fittings and with us.
pub const OLD_LENGTH: usize = 20;

pub const OUR_LENGTH: usize = 24;
