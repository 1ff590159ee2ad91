// The boot, as sentences in specs/; proofs/ shows that what the installer promises satisfies them and that nothing else does.
#![tactic(auto)]
