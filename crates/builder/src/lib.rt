// The builder: where the pieces of an order lie, and the bytes of each.

#![tactic(auto)]
