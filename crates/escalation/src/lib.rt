// Demand 3: the claim about a whole list of ticks in specs/, its proof in proofs/.
#![tactic(auto)]
