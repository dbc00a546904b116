// No code but the type below: the definitions of the receive unit, what becomes of an arriving frame, and one service, which begins a held
// frame, fills a buffer, or ends the frame. What C runs is code_arrival and code_receive, which are held to
// them.

#![tactic(auto)]

use memory::{Offset, RealAddress};

// A receive buffer descriptor, as far as it is read: the next one, its buffer, whether it is the last one, and the buffer's size.
#[derive(Clone, Copy)]
pub struct Descriptor {
    pub next: Offset,
    pub buffer: RealAddress,
    pub el: bool,
    pub size: u16,
}
