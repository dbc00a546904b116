// No code: the definitions of the control codes, row by row, what CUC and RUC do to the units, and what an abort writes. That scb's tables
// follow is shown in proofs/Table.antt.
// What C runs is code_control, which is held to them.

#![tactic(auto)]
