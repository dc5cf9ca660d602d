// No code: the run of n houses at the bytes, and demand 3 proved of the very calls that a house makes.
#![tactic(auto)]
