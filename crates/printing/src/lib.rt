// No code: what the replay program prints. What a line prints always fits, and it does not matter how the input is cut into stretches.

#![tactic(auto)]
