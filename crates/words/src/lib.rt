// No code: a number of 32 bits as four bytes, big-endian, and the number that four bytes stand for.
#![tactic(auto)]
