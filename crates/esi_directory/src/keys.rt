// A record's fields as numbers, low byte first: so two ESI IDs are compared in two steps and not byte by byte.
ghost use Rattle.std.specs.Prelude.{◌≡◌, ◌≤◌, length};
ghost use Rattle.records.specs.Layout.{field_of};
ghost use Rattle.esi_rules.specs.Directory.{premise_of, zero_field};
ghost use Rattle.esi_rules.specs.Keys.{key_width, key_of};

use esi_rules::Key;
use record_bytes::{eight, four};
use records::RECORD_LENGTH;

pub type Record = [u8; RECORD_LENGTH];

// The first byte of P, and of the four zeros.
const PREMISE_AT: usize = 12;

const ZEROS_AT: usize = 20;

// The first twelve bytes.
pub fn key_of(bytes: &[u8]) -> Key
    requires { key_width ≤ length bytes.now }
    ensures { result ≡ key_of bytes.now }
{
    Key {
        first: eight(bytes, 0),
        last: four(bytes, 8),
    }
}

// A record's premise number.
pub fn premise_of(bytes: &Record) -> u64
    ensures { result ≡ premise_of bytes.now }
{
    eight(bytes, PREMISE_AT)
}

// Its last four bytes.
pub fn zeros_of(bytes: &Record) -> u32
    ensures { result ≡ field_of zero_field bytes.now }
{
    four(bytes, ZEROS_AT)
}
