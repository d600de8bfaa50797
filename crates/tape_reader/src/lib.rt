// The tape reader: how many records of a tape were played, how many of them were accepted and how many refused. It is lent and changed
// in place.
#![tactic(auto)]

ghost use Rattle.std.specs.Prelude.{◌≡◌};
ghost use Rattle.tape_reader.specs.Counts.{counted, Within};

// The reader: the place of the last record that was played, from 1, or 0 before the first.
#[derive(Debug, Clone, Copy, PartialEq, Eq)]
pub struct Reader {
    pub place: usize,
    pub accepted: usize,
    pub refused: usize,
}

impl Reader {
    // A reader before the first record.
    pub fn start() -> Reader
        ensures { result ≡ record { place = 0; accepted = 0; refused = 0 } }
    {
        Reader {
            place: 0,
            accepted: 0,
            refused: 0,
        }
    }

    // The reader one record on, by value.
    #[tactic(auto, unfolding(crate::specs::Counts::counted))]
    fn step(self, answer: u8) -> Reader
        requires { Within self }
        ensures { result ≡ counted self answer }
    {
        let mut next = self;
        next.place += 1;
        if answer == 0 {
            next.accepted += 1;
        } else {
            next.refused += 1;
        }
        next
    }

    // The reader is lent, and changed in place.
    pub fn advance(&mut self, answer: u8)
        requires { Within self.old }
        ensures { self.new ≡ counted self.old answer }
    {
        *self = self.step(answer);
    }

    // A reader by value, over the lent one: whoever calls this needs no proof by hand.
    pub fn advanced(self, answer: u8) -> Reader
        requires { Within self }
        ensures { result ≡ counted self answer }
    {
        let mut next = self;
        next.advance(answer);
        next
    }
}
