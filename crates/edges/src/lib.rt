// No code: document 01's rules at their edges, as worked cases of the chip's definitions.

#![tactic(auto)]
