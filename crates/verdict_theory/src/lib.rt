// The verdict on a macro (SPEC 10): there is no code here. The definitions are in specs/, the theorems in proofs/Theory/.

#![tactic(auto)]
