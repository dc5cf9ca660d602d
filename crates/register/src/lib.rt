// No code: what the book delivers, the roll takes; said of the book's promises, and of nothing of its bytes.
#![tactic(auto)]
