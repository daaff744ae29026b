// Theorems only: what a session promises, stated against a ledger of the records' bytes.
#![tactic(auto)]
