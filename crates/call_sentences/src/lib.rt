// What a caller in C hands in and gets back, as sentences in specs/; proofs/ shows that what the boundary promises satisfies them and that nothing else does.
#![tactic(auto)]
