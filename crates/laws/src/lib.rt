// Laws of the rules: definitions and theorems alone, in specs/ and proofs/.
#![tactic(auto)]
