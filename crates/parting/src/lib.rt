// How a stream is parted and what reading it means, over any handset. All of it is in specs/ and proofs/: there is no code to run.
#![tactic(auto)]
