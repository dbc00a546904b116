// No code: the commands of a built order as the command unit alone does them: each status, and each frame as it was ordered.

#![tactic(auto)]
