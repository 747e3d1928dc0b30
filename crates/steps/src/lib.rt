// The rules of the plain run and of the stepped run, and demand 3: definitions in specs/, theorems in proofs/, and no code.
#![tactic(auto)]
