// No code: the steps on one entry, the run of n houses over whole books, and what is proved of every run.
#![tactic(auto)]
