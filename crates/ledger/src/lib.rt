// The ledger, a model of a list memory that never moves a cell, and the law that a list memory answers as it does.
// It has no code: its definitions and its law are cited by the memory's contracts.
#![tactic(auto)]
