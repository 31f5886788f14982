// Theorems only: what a judgement means, over the calls `judge::judge`, `divide::judge` and `divide::check`, that the
// two judges agree, and that our chains say of current what the published model (document 000) says. There is no code
// here; specs/ has the statements, proofs/ the theorems of the same names.
#![tactic(auto)]
