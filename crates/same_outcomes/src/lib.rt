// Of document 02 the changes 2 and 7, for who does not use them, as statements in specs/ and theorems in proofs/; it has no code. Where no
// create has a detail everything comes out as with a window of two days throughout (WindowOfTwo); where retailers have nine digits the
// calls come to the same with either width of the field (EitherWidth). Each has a sample that is computed.
#![tactic(auto)]
