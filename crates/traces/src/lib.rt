// No code: what happens over time, and what may happen. specs/Event.antt has the calls and what the host does between them, on the chip's state;
// specs/Bytes.antt the calls on the areas that are lent; specs/Areas.antt the world that areas show; specs/Driven.antt how a host drives the chip
// on them, and what is asked of it; specs/Told.antt what its caller is told. The rooms above say of such traces what the demands say.

#![tactic(auto)]
