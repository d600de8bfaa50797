// Document 02, change 13, "Every order comes to one end": two theorems about lists of record calls from a fresh book, as statements in
// specs/ and theorems in proofs/; it has no code. A closed order stays as it is until it goes (Endings); an order in review that no record
// names hangs until its last day (Waiting). Each has a sample that is computed.
#![tactic(auto)]
