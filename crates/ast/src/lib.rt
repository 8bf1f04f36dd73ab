// The meaning of rules as trees: the crate is its definitions, in specs/, and their laws, in specs/ and proofs/.
#![tactic(auto)]
