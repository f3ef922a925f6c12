// Theorems only, in specs/: an accepted program never gets stuck, its runs end, and larger limits change nothing.
#![tactic(auto)]
