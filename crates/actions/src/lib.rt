// No code: the definitions of the commands' actions, done at their end turn: what each reads from its block, sets up and writes, and its status.
// What C runs is code_actions, which is held to them.

#![tactic(auto)]
