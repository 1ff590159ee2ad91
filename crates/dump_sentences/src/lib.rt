// The dump, its writer and its reader, as sentences in specs/; proofs/ shows that what writer and reader promise satisfies them and that nothing else does.
#![tactic(auto)]
