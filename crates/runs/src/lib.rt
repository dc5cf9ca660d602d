// No code: four seasons at the bytes, by the very calls, computed. One has a power cut, one a liar and a return, one neither crash nor
// return, as in document 01, and one a lying sender; the premises of the claims are met by them.
#![tactic(auto)]
