// What prices on the ramps close that other leaves leave open, and readings of them that are wrong, each refuted: definitions and laws, and no code.
#![tactic(auto)]
