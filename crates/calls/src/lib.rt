// Demand 3 and the second statement across calls: the claims about any sequence of tick, batch, boot and calm calls in specs/, their proofs in proofs/.
#![tactic(auto)]
