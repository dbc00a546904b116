// No code but the type below: the chip's definitions, reset, attention, arrival and turn over a device and the areas that are lent with it, and
// turns in a row. Every promise cites them; what C runs is code_chip. proofs/ has P1 to P8, the swapped readings, and laws of turns and runs.

#![tactic(auto)]

// A unit that a turn may serve. With no work it serves neither.
#[derive(Clone, Copy)]
pub enum Unit {
    Command,
    Receive,
}
