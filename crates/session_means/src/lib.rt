// Theorems only: the lines that the calls of crate `session` hand out, one by one or by the buffer, are the session's
// lines; which refusals its events can meet; and what its lines say of the drawn relays. There is no code here; specs/
// has the statements, proofs/ the theorems of the same names.
#![tactic(auto)]
