//! Counts of events, as of rings, faults, refused sets and empty looks: a count never falls, and stays at the most
//! that 64 bits hold. Definitions alone (`specs/Counts.antt`), for the crates whose calls answer by such a count.
#![tactic(auto)]
