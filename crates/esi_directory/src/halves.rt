// Packed decimal: two digits a byte, the first in the high half. Document 01 names the form: shifts and masks pack and unpack digit pairs.
ghost use Rattle.std.specs.Prelude.{◌≡◌, ◌/◌, ◌%◌, ◌<◌};
ghost use Rattle.esi_rules.specs.Packed.{pair};

// The half of a byte that no digit uses.
pub const UNUSED: u8 = 15;

pub const LAST_DIGIT: u8 = 9;

// Two halves in a byte.
pub fn pack_pair(first: u8, second: u8) -> u8
    requires { (first < 16) × (second < 16) }
    ensures { result ≡ pair first second }
{
    (first << 4) | second
}

// The half of a byte's first digit.
pub fn high(byte: u8) -> u8
    ensures { result ≡ byte / 16 }
{
    byte >> 4
}

// The half of its second.
pub fn low(byte: u8) -> u8
    ensures { result ≡ byte % 16 }
{
    byte & 15
}
