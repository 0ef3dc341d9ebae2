// What the crates together promise, as statements over their definitions: a packed column is read
// back, and document 01's marked examples. There is no code here: proofs/ has the proofs.
#![tactic(auto)]
