// The directory of ESI IDs, which says which premise number an ESI ID stands for: its types. Document 02, change 8. Its rules and what a
// look-up gives stand in specs/, with their theorems; the laws that the code cites and the proofs in proofs/. The code stands in
// `esi_directory`.
#![tactic(auto)]

// Why a look-up gives no premise number, and the number that says so. One that gives it has 0 to say, and is `Ok` here.
#[derive(Debug, Clone, Copy, PartialEq, Eq)]
pub enum Refusal {
    // the directory breaks a rule, or its length is no multiple of 24
    DirectoryUnsound = 20,
    // the text is not 17 or 22 ASCII digits
    TextMalformed = 21,
    // no record has it
    NoRecord = 22,
}

// A record's first twelve bytes, the packed digits and their count, as two numbers.
#[derive(Debug, Clone, Copy, PartialEq, Eq)]
pub struct Key {
    pub first: u64,
    pub last: u32,
}
