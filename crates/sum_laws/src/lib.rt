//! Laws of sums over lists, for whoever keeps a rule in which the seats of a shared object each hold a part of a
//! number: what becomes of the sum where one item changes, and what follows where one item has all of it. It has
//! no code; `proofs/SumLemmas.antt` holds the laws, which the proofs of the crates above cite.
#![tactic(auto)]
