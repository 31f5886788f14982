// Theorems only: what a board and its file are to each other, over the calls `board_reader::read` and
// `board_writer::write`. There is no code here; specs/RoundTrip.antt, specs/BytesAfter.antt and specs/FileRefusals.antt
// have the statements, proofs/ the theorems of the same names.
#![tactic(auto)]
