// Document 02, change 12, "No retailer fills a flat's stack": two theorems about lists of record calls from a fresh book, as statements in
// specs/ and theorems in proofs/; it has no code. A sample is computed.
#![tactic(auto)]
