// A text that is being written to a buffer, each piece behind the one before.
ghost use Rattle.std.specs.Prelude.{◌≡◌, ◌<◌, [], ◌∷◌, length};
ghost use Rattle.tape_text.specs.Numbers.{Puts};

// The buffer, and where what is written to it ends.
#[derive(Drop)]
pub struct Text<'a> {
    pub out: &'a mut [u8],
    pub at: usize,
}

impl<'a> Text<'a> {
    // A text of which nothing is written.
    pub fn new(out: &'a mut [u8]) -> Text<'a>
        ensures same_buffer { result.out.ghost_name ≡ out.entry.ghost_name }
        ensures bytes { result.out.now ≡ out.old }
        ensures at_start { result.at ≡ 0 }
    {
        Text { out, at: 0 }
    }

    // One byte.
    pub fn byte(&mut self, byte: u8)
        requires { self.old.at < length self.old.out.now }
        ensures same_buffer { self.new.out.ghost_name ≡ self.old.out.ghost_name }
        ensures puts { Puts self.old.at self.old.out.now self.new.out.now self.new.at
            (byte ∷ []) }
    {
        self.out[self.at] = byte;
        self.at += 1;
    }
}
