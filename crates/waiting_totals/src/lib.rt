// Document 02, change 11, "Waiting orders at a glance": two theorems about lists of record calls from a fresh book, as statements in specs/
// and theorems in proofs/; it has no code. The totals that the question shows are the counts over the files; two shuffled tapes show the
// same. Samples are computed.
#![tactic(auto)]
