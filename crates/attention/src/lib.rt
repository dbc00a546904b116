// No code: the definitions of a channel attention, in document 01's order: the first after reset, and every other. What C runs is
// code_attention, which is held to them.

#![tactic(auto)]
