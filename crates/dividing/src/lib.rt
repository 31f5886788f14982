// Theorems only: what it is to divide a winding, and that a chain shows a winding exactly if no terminal divides it.
// There is no code here; specs/ has the statements, proofs/Dividing.antt the theorems.
#![tactic(auto)]
