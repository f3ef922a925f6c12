// Theorems only, in proofs/: what holds of every source, in the terms of document 01.
#![tactic(auto)]
