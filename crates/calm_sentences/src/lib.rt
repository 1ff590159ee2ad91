// Calm ticks in one go, as sentences in specs/; proofs/ shows that what a calm call promises satisfies them and that nothing else does.
#![tactic(auto)]
