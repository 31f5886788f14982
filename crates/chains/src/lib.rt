// Theorems only: what a chain is, the list of all chains, and that the two are one. There is no code here; the specs
// have the definitions, proofs/ChainsCorrect.antt, ChainsComplete.antt and ChainsSorted.antt the theorems.
#![tactic(auto)]
