// No code: the demands on an arbitrary chip, what meets the promises has them, and the inspector's list: no chip of a wrong kind meets the
// promises, and each kind has a chip that is no worse.

#![tactic(auto)]
