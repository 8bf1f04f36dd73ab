// Histories of calls on a book, in specs/, and what is promised of them, in proofs/.
#![tactic(auto)]
