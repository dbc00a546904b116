// No code: the commands of a built order as the list that demand 3 speaks of, and the bytes that they use.

#![tactic(auto)]
