// Theorems only: which typing errors the checks of a line let pass (SPEC.md, "Typing errors").
#![tactic(auto)]
