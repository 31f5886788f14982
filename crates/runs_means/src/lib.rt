// Theorems only: what a run means, over the call `runs::run`. Its moves are those of the published model, each of the
// lowest relay that can move; what each of its words says; and demand 3 for runs. There is no code here; specs/ has the
// statements, proofs/ the theorems of the same names.
#![tactic(auto)]
