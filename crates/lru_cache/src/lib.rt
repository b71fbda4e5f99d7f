// Theory only: specs/ says what a sound cache of slots is and what each change makes of it, and proofs/ what follows.
#![tactic(auto)]
