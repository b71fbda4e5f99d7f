// Theory only: specs/ says what a sound trie in numbered slots is, and proofs/ what follows. Table and cache stand on it.
#![tactic(auto)]
