// General laws that the crates above cite; there is no code here. The definitions are in specs/, the laws in proofs/Theory/.

#![tactic(auto)]
