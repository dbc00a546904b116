// No code: the definition of a match, which says whether a frame is for us. What C runs is code_filter, which is held to it.

#![tactic(auto)]
