// Texts: whether one is an ESI ID, and the first twelve bytes of a record that has it.
ghost use Rattle.std.specs.Prelude.{◌≡◌, true, ◌<◌, get_or};
ghost use Rattle.esi_rules.specs.Packed.{unused};
ghost use Rattle.esi_rules.specs.LookUp.{is_id_text, digits_of};
ghost use Rattle.esi_rules.specs.Directory.{is_count};
ghost use Rattle.esi_rules.specs.Keys.{key_bytes};

use crate::halves;

const ASCII_ZERO: u8 = b'0';

// An ESI ID has 17 or 22 digits, and eleven bytes.
pub const SHORT_COUNT: usize = 17;

pub const LONG_COUNT: usize = 22;

pub const ID_BYTES: usize = 11;

pub fn is_count(n: usize) -> bool
    ensures { result ≡ is_count n }
{
    matches!(n, SHORT_COUNT | LONG_COUNT)
}

// Whether a text is 17 or 22 ASCII digits.
pub fn is_id_text(text: &[u8]) -> bool
    ensures { result ≡ is_id_text text.now }
{
    is_count(text.len()) && text.iter().all(u8::is_ascii_digit)
}

// The half at a place: the text's digit, and behind its last an unused half.
fn half_at(text: &[u8], place: usize) -> u8
    requires { is_id_text text.now ≡ true }
    ensures { (result ≡ get_or (digits_of text.now) place unused) × (result < 16) }
{
    if place < text.len() {
        text[place] - ASCII_ZERO
    } else {
        halves::UNUSED
    }
}

// The packed digits of a text, and their count behind them.
pub fn packed_text(text: &[u8]) -> [u8; 12]
    requires { is_id_text text.now ≡ true }
    ensures { result ≡ key_bytes (digits_of text.now) }
{
    let mut bytes = [0u8; 12];
    for place in 0..ID_BYTES {
        bytes[place] = halves::pack_pair(half_at(text, 2 * place), half_at(text, 2 * place + 1));
    }
    bytes[ID_BYTES] = text.len() as u8;
    bytes
}
