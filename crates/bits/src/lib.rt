// Bits and fields of numbers: definitions and laws alone, in specs/.
#![tactic(auto)]
