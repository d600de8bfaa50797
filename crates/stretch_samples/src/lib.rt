// Change 5 of document 02, computed: calls with many records that are written out, and stretches of shuffled tapes which meet the premises
// of the theorem over them. They stand beside `stretch_rules`, of which each edit is tried without computing them.
#![tactic(auto)]
