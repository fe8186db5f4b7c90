// The theory of static flows: definitions in specs/, theorems in proofs/. No code.
#![tactic(auto)]
