// No code: demand 3, second half: a held frame is stored or counted within 132 turns.

#![tactic(auto)]
