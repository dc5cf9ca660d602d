// Definitions and theorems alone: what an entry is.
#![tactic(auto)]
