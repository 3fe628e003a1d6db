// The groups of commands whose order does not matter: orders with no group in common commute, and each is answered as if it came alone.
// All of it is in specs/ and proofs/: there is no code to run.
#![tactic(auto)]
