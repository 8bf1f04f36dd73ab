// The model of a book: parts, rules, insert and delete as functions of lists. The crate is its definitions, in specs/, and their laws, in
// specs/ and proofs/.
#![tactic(auto)]
