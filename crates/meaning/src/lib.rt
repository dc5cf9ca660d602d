// What a book means: the bytes are laid out, and their laws shown, in specs/ and proofs/.
#![tactic(auto)]
