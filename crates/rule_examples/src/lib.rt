// Worked examples of the rules that go through every register, every class or every word of alerts: theorems alone, in proofs/. The
// shorter ones stand beside the definitions, where each must-fail edit of the rules is tried on them.
#![tactic(auto)]
