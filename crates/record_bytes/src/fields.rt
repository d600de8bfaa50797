// A record's fields, each read from its bytes.
ghost use Rattle.std.specs.Prelude.{◌≡◌, length};
ghost use Rattle.records.specs.Layout.{record_length};
ghost use Rattle.records.specs.Records.{fields_of};

use crate::numbers::{eight, four, two};
use records::{Record, field_at};

// A record's fields.
pub fn fields_of(bytes: &[u8]) -> Record
    requires { length bytes.now ≡ record_length }
    ensures { result ≡ fields_of bytes.now }
{
    Record {
        kind: bytes[field_at::KIND],
        detail: bytes[field_at::DETAIL],
        day: two(bytes, field_at::DAY),
        reference: four(bytes, field_at::REFERENCE),
        premise: eight(bytes, field_at::PREMISE),
        retailer: eight(bytes, field_at::RETAILER),
    }
}
