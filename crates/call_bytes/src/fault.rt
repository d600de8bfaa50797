// What can be wrong with the input.

use std::fmt;

#[derive(Debug, Clone, Copy, PartialEq, Eq)]
pub enum Fault {
    // standard input can't be read
    Unreadable,
    // it ends within a book
    BookBreaksOff,
    // it ends within another part of a call, or that can't be read
    CallBreaksOff,
    // the length of a part is above what is taken
    LongPart,
    // the length of a lent buffer is above what is taken
    LongBuffer,
}

impl fmt::Display for Fault {
    fn fmt<W: fmt::Write>(&self, f: &mut fmt::Formatter<W>) -> fmt::Result {
        f.write_str(match self {
            Fault::Unreadable => "standard input can't be read",
            Fault::BookBreaksOff => "the calls break off",
            Fault::CallBreaksOff => "the calls break off or can't be read",
            Fault::LongPart => "a length is above what is taken",
            Fault::LongBuffer => "a buffer is longer than what is taken",
        })
    }
}

impl Fault {
    // Says on standard error what is wrong, under the program's name. Whether it is taken is not asked.
    pub fn complain(self, rt: &impl Eprint, program: &str) {
        let _ = eprintln!(rt;
            "{program}: {self}; give whole calls, as callcheck --make writes single ones and blockcheck --make those of many records"
        );
    }
}
