// Request (xii), skip the calm: what is true of calm ticks, from one class to the whole handler. See specs/ and proofs/.
#![tactic(auto)]
