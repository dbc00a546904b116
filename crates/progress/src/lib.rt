// No code: traces in general, and two units that take turns over one memory. specs/ says what a machine must have for it and what follows; proofs/
// shows it. The rooms lists and held make machines of the chip.

#![tactic(auto)]
