// Request (xiv), the dump: claims about states and their dumps, in specs/, and theorems, in proofs/.
#![tactic(auto)]
