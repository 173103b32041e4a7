// The end of the proof: every demand, sentence by sentence, over the claims in the contracts of the public functions. There is no code here.
// Read proofs/Demand1.antt, Demand2.antt and Demand3.antt, and proofs/Names.antt for request 1.

#![tactic(auto)]
