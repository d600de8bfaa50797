// Record calls made one after the other: what came back of each, as a list of calls of which demand 3 speaks, and that these are the calls
// in a row which the player promises. `call_row` makes them.
#![tactic(auto)]
