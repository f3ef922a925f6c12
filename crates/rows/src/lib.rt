// Theorems only, in specs/: rows of document 01, closed by computation on the definitions.
#![tactic(auto)]
