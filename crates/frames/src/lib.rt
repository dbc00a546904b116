// No code: demand 2 of frames: what becomes of each frame, at an arrival, at every call, and over whole traces, on states and on bytes; and that what
// is stored of it are its bytes.

#![tactic(auto)]
