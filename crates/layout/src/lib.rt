// The rules of the flow file: definitions in specs/, theorems in proofs/, and no code.
#![tactic(auto)]
