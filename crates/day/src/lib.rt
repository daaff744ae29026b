// Theorems only: the day of an input and the page that the program prints for it (SPEC.md, "The program quadro").
#![tactic(auto)]
