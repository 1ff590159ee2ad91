// What the program prints, in sentences of bytes and places, in specs/. proofs/ shows that they hold of the definition that the program's contracts cite, and of nothing else.
#![tactic(auto)]
