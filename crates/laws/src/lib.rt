// Laws that the proofs of several crates cite: proofs/Every.antt on tables and Booleans. There is no code here.
#![tactic(auto)]
