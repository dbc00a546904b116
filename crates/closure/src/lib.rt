// No code: every state that a call leaves is in range, every byte stays a byte; and demand 1, the refusals.

#![tactic(auto)]
