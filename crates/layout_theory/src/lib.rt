// The house layout of a macro (SPEC 8.6): there is no code here. The definitions are in specs/, the theorems in proofs/Theory/.

#![tactic(auto)]
