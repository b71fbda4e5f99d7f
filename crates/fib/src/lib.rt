// Theory only: specs/ says which runs of the public calls their contracts admit, and proofs/ what is true of every one of them.
#![tactic(auto)]
