// What a route table and the cache in front of it do, as definitions: specs/ says it, proofs/ shows that it is what was asked for.
// There is no code here; the stores are held to these definitions.
#![tactic(auto)]
