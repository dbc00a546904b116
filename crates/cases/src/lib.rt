// No code: worked cases of the chip's definitions, beside P1 to P8 and the swapped readings, which stand with the chip itself.
// proofs/Readings.antt has the points that could be read two ways, Wide.antt larger memories; the rules at their edges are in the room edges.

#![tactic(auto)]
