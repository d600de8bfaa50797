// The 24 bytes of a notice, written to a buffer.
ghost use Rattle.std.specs.Prelude.{◌≡◌, ◌++◌, ◌≤◌, length, drop};
ghost use Rattle.records.specs.Layout.{record_length};
ghost use Rattle.records.specs.Notices.{encode};

use records::{Notice, RECORD_LENGTH, field_at};

// Writes a notice to the front of what is left of the buffer; the rest stays.
pub fn write_notice(buffer: &mut [u8], notice: Notice)
    requires { record_length ≤ length buffer.old }
    ensures { buffer.new ≡ encode notice ++ drop record_length buffer.old }
{
    buffer[field_at::KIND] = notice.code;
    buffer[field_at::DETAIL] = notice.kind;
    buffer[field_at::DAY..field_at::REFERENCE].copy_from_slice(&notice.day.to_le_bytes());
    buffer[field_at::REFERENCE..field_at::PREMISE].copy_from_slice(&notice.reference.to_le_bytes());
    buffer[field_at::PREMISE..field_at::RETAILER].copy_from_slice(&notice.premise.to_le_bytes());
    buffer[field_at::RETAILER..RECORD_LENGTH].copy_from_slice(&notice.addressee.to_le_bytes());
}
