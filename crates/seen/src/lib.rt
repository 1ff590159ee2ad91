// Request (xi), the second statement: the claim about what the lines' receivers see of a list of ticks in specs/, its proof in proofs/.
#![tactic(auto)]
