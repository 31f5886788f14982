// Theorems only: what the figures of a report say, over the call `report::report`. There is no code here; specs/ has
// the statements, proofs/ the theorems of the same names.
#![tactic(auto)]
