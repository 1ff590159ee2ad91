// What the program prints: definitions and theorems alone, in specs/ and proofs/.
#![tactic(auto)]
