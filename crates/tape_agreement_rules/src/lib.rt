// Two tapes held against each other, premise by premise: what comparing them says. Document 02, change 10. What it is to agree stands in
// specs/, with its theorems; their proofs and the laws that the code cites in proofs/. The code stands in `tape_agreement`.
#![tactic(auto)]

// What comparing our tape with another says: yes, or no with a number. (No Result: a no is an answer like the
// yes, and nothing is left undone with it.)
#[derive(Debug, Clone, Copy, PartialEq, Eq)]
pub enum Agreement {
    // Yes: every premise has the same on both.
    Same,
    // No, 0: the day marks alone differ.
    MarksDiffer,
    // No: the smallest premise at which they differ.
    Differ(u64),
}
