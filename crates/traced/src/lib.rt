// No code: frames along calls that are made one by one, which meet the premises of the theorems of the room frames: a run with every fate, on bytes too; a
// frame's data; a group that passes by its bit; and an arrival for each reason to drop a frame.

#![tactic(auto)]
