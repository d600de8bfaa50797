// Lists, below every layer: searches and shifts in specs/, and their laws in proofs/. It has no code.
#![tactic(auto)]
