// The source paper's equations, and that the model reads them rightly: definitions and laws, and no code.
#![tactic(auto)]
