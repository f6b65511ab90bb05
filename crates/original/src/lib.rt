#![tactic(auto)]

// The crate nbd 0.3.1 as a function on values, and that the port does the same on the oracle domain. The crate is its specs and its proofs.
