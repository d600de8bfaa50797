// Numbers of two, four and eight bytes, low byte first.
ghost use Rattle.std.specs.Prelude.{◌≡◌, ◌+◌, ◌≤◌, length, take, drop};
ghost use Rattle.records.specs.Layout.{number};

// The bytes from a place on, as many as the array has that is asked for.
fn bytes_at<const WIDTH: usize>(bytes: &[u8], at: usize) -> [u8; WIDTH]
    requires { at + WIDTH ≤ length bytes.now }
    ensures { result ≡ take WIDTH (drop at bytes.now) }
{
    bytes[at..at + WIDTH].try_into().unwrap()
}

// The number in two bytes.
pub fn two(bytes: &[u8], at: usize) -> u16
    requires { at + 2 ≤ length bytes.now }
    ensures { result ≡ number (take 2 (drop at bytes.now)) }
{
    u16::from_le_bytes(bytes_at(bytes, at))
}

// The number in four bytes.
pub fn four(bytes: &[u8], at: usize) -> u32
    requires { at + 4 ≤ length bytes.now }
    ensures { result ≡ number (take 4 (drop at bytes.now)) }
{
    u32::from_le_bytes(bytes_at(bytes, at))
}

// The number in eight bytes.
pub fn eight(bytes: &[u8], at: usize) -> u64
    requires { at + 8 ≤ length bytes.now }
    ensures { result ≡ number (take 8 (drop at bytes.now)) }
{
    u64::from_le_bytes(bytes_at(bytes, at))
}
