// Request (vi), boot policy: when a boot succeeds, what then stands, and where it stops. The claims are in specs/, the theorems in proofs/.
#![tactic(auto)]
