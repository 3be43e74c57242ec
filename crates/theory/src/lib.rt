// The theory of fault groups: definitions in specs/, theorems in proofs/. No functions.
#![tactic(auto)]
