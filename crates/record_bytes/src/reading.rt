// What the 24 bytes of a record or a notice say.
ghost use Rattle.std.specs.Prelude.{◌≡◌, ◌≤◌, length};
ghost use Rattle.records.specs.Layout.{record_length};
ghost use Rattle.records.specs.Records.{reading};
ghost use Rattle.records.specs.Notices.{decode};

use crate::fields::fields_of;
use crate::well_formed::well_formed;
use records::{Notice, RECORD_LENGTH, Record};

// What the bytes of a record say, by the bytes alone. Every length and every byte is answered.
pub fn read_record(bytes: &[u8]) -> Option<Record>
    ensures { result ≡ reading bytes.now }
{
    if bytes.len() != RECORD_LENGTH {
        return None;
    }
    let record = fields_of(bytes);
    well_formed(record).then_some(record)
}

// The notice in the first 24 bytes; those behind them are not looked at. It has the record's layout, so its fields are a record's by
// other names.
pub fn read_notice(bytes: &[u8]) -> Notice
    requires { record_length ≤ length bytes.now }
    ensures { result ≡ decode bytes.now }
{
    let fields = fields_of(&bytes[..RECORD_LENGTH]);
    Notice {
        code: fields.kind,
        kind: fields.detail,
        day: fields.day,
        reference: fields.reference,
        premise: fields.premise,
        addressee: fields.retailer,
    }
}
