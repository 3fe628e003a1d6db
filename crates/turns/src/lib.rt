// Any device that takes entries one at a time, answers each, and has limited room for its answers.
// All of it is in specs/ and proofs/: there is no code to run.
#![tactic(auto)]
