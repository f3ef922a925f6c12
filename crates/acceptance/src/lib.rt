#![tactic(auto)]

// Theorems only, in specs/: a source is accepted exactly when grammar, bounds and typing rules allow it.
