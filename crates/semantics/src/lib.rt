// The mathematics of traces: there is no code here. The definitions are in specs/, the theorems in proofs/Theory/.

#![tactic(auto)]
