// The theorems on reading and writing a flow file: statements and proofs in proofs/, and no code.
#![tactic(auto)]
