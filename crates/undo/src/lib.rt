// The theorems that the calls of the reader and of the writer undo one another: statements in specs/, proofs in proofs/, and no code.
#![tactic(auto)]
