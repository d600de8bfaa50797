// The three demands, as statements in specs/ and theorems in proofs/; it has no code: they are about what `book_calls::record_call`
// promises. And what follows from them, each line written out: for who makes calls (Callers), for a tape put together in another way
// (Rearranged), and for several books (Fleet); `last_day` has three tapes to the last byte. A sample of demand 3 is computed, so that its
// premises are seen to be met. Theorems of document 02 over the same lists of calls have crates of their own.
#![tactic(auto)]
