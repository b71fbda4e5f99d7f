// Theory only: specs/ says what a C program sees that links the library, and proofs/ that it is the model's run.
#![tactic(auto)]
