// Three tapes on the last day there is, written out: what their calls return is proved from the demands, and said without a name of
// theirs, so that none of it gets weaker with their definitions.
#![tactic(auto)]
