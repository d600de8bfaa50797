// A record of a tape, from its bytes: two fields are looked at before it is read whole.
ghost use Rattle.std.specs.Prelude.{◌≡◌};
ghost use Rattle.records.specs.Records.{reading};
ghost use Rattle.tape_agreement.specs.Walks.{is_said, nearer};

use record_bytes::{eight, read_record};
use records::{RECORD_LENGTH, field_at, record_kind};

// Whether it is well formed.
pub fn is_formed(bytes: &[u8]) -> bool
    ensures { result ≡ is_said (reading bytes.now) }
{
    read_record(bytes).is_some()
}

// The premise that it names, if that lies above the last one and is nearer than the nearest so far; else the nearest so far.
pub fn nearer(bytes: &[u8; RECORD_LENGTH], last: u64, nearest: u64) -> u64
    ensures { result ≡ nearer last nearest (reading bytes.now) }
{
    let premise = eight(bytes, field_at::PREMISE);
    // both tests are cheap: as one they are one case of the proof
    if (last < premise) & (premise < nearest)
        && bytes[0] != record_kind::DAY_MARK
        && is_formed(bytes)
    {
        return premise;
    }
    nearest
}
