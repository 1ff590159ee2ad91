// "Traces" and the calls a second time, as sentences in specs/: words, records, batches, the writer; proofs/ shows that the rules satisfy them and that nothing else does.
#![tactic(auto)]
