// No code but the type below: the definitions of a unit as a tag and words of eight bytes, and back, in which what a phase uses stands below
// what it does not use, which is zero. The rooms packed and image rest on them.

#![tactic(auto)]

// A unit's eight bytes: an offset, six flags, a small number, a size, and another offset.
#[derive(Clone, Copy)]
pub struct Word {
    pub at: u16,
    pub first: bool,
    pub second: bool,
    pub third: bool,
    pub fourth: bool,
    pub fifth: bool,
    pub sixth: bool,
    pub kind: u8,
    pub size: u16,
    pub next: u16,
}
