// Dockets and reports that are wrong, and that demand 3 refutes each: definitions and laws, and no code.
#![tactic(auto)]
