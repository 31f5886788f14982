// Theorems only: the guards for drawing and dropping a relay in the words of documents 000 and 002, and that a step of
// a relay (`step_of`) and the call `moves::move_relay` go by them, and by the chains through the relay's windings, as
// the rule book has it. There is no code here; specs/ has the statements, proofs/ the theorems of the same names.
#![tactic(auto)]
