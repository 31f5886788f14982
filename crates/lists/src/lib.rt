// Theorems only: what it is to be among the members of a list, to hold of all of them and to stand once, tables, and
// laws of lists that loops over arrays need.
#![tactic(auto)]
