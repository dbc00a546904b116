// No code: demand 3, first half: a command list is done within 132 turns a command, once each, in list order.

#![tactic(auto)]
