// Where the record's parts stand. docs/record.md, "Layout"; specs/Record.antt has the same for the definitions.

// All of it.
pub const SIZE: usize = 256;

// The letters and the version.
pub const LETTERS: usize = 0;

pub const VERSION: usize = 3;

// What they are: B, G, T, and 1. Both are read as the low five of the record's first eight bytes.
pub const BGT: u64 = 0x544742;

pub const VERSION_1: u64 = 1;

pub const FRONT: u64 = BGT + (VERSION_1 << 24);

pub const FRONT_END: u64 = 1 << 40;

// The four numbers: status, the command unit's word, the receive unit's two.
pub const STATUS: usize = 5;

pub const CU: usize = 16;

pub const RU: usize = 24;

pub const REST: usize = 32;

// Three spare bytes behind the status; behind the numbers a run of spare bytes, in words of eight.
pub const GAP: usize = 13;

pub const SPARE: usize = 40;

pub const SPARE_WORDS: usize = 25;

// What the commands set up, to the end.
pub const SETUP: usize = 240;

pub const SETTINGS: usize = SETUP + crate::setup::SETTINGS;

pub const MINIMUM: usize = SETUP + crate::setup::MINIMUM;

pub const OWN: usize = SETUP + crate::setup::OWN;

pub const FILTER: usize = SETUP + crate::setup::FILTER;
