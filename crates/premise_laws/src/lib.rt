// The laws of the premise layer that the crates above its rules cite. It has no code. Of its steps: every step leaves a well-kept file,
// gives notices of its own premise alone, and few of them; which orders the clock and the evaluation change, and which files a day mark
// leaves (specs/Changes.antt). Of notices: written one lot after another, by a pass, by one thing done after another.
#![tactic(auto)]
