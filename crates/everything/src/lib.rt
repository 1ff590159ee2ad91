// All sentences joined, in specs/: every call of a library of the sentences. proofs/ shows that what the boundary promises is such a library, and that no other can be told from it.
#![tactic(auto)]
