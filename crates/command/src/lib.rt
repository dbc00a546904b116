// No code but the type below: the definitions of the command unit's service, which begins a command, takes a buffer of a Transmit, or ends a
// command. What C runs is code_command, which is held to them.

#![tactic(auto)]

use memory::{Offset, RealAddress};

// A Transmit's buffer descriptor.
#[derive(Clone, Copy)]
struct Descriptor {
    eof: bool,
    count: u16,
    next: Offset,
    buffer: RealAddress,
}
