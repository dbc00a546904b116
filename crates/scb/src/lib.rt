// The words of the SCB: what its command word says, and where a control code takes a unit. It takes every word, and asks for a state's number
// where a table has a place for each; specs/ says how the status word is made, which the room code_attention does.

#![tactic(auto)]

ghost use Rattle.std.specs.Prelude.{◌≡◌, ◌<◌, [], get_or};
ghost use Rattle.scb.specs.Words as words;
ghost use Rattle.scb.specs.Control as control;
ghost use Rattle.scb.specs.Numbers as numbers;
ghost use Rattle.scb.specs.declared.CuState.{CuState};
ghost use Rattle.scb.specs.declared.RuState.{RuState};

// The command unit's state, CUS.
#[derive(Clone, Copy)]
pub enum CuState {
    Idle,
    Suspended,
    Active,
}

// The receive unit's state, RUS.
#[derive(Clone, Copy)]
pub enum RuState {
    Idle,
    Suspended,
    NoResources,
    Ready,
}

// The events that stand in bits 15 to 12 of the status.
#[derive(Clone, Copy)]
pub struct Events {
    pub cx: bool,
    pub fr: bool,
    pub cna: bool,
    pub rnr: bool,
}

// The command word: 10 to 8 are CUC, 7 is RESET, 6 to 4 are RUC.
const CUC: u16 = 8;

const RESET: u16 = 7;

const RUC: u16 = 4;

const CODE_BITS: u16 = 3;

// Shift and mask: the `bits` bits of a word from bit `at` on.
#[tactic(auto, using(crate::proofs::Fields::mask_room, crate::proofs::Fields::bits_law))]
fn cut(w: u16, at: u16, bits: u16) -> u16
    requires { (at < 16) × (bits < 16) }
    ensures { result ≡ words.bits_at w at bits }
{
    (w >> at) & ((1 << bits) - 1)
}

// The bits of a word from bit `at` on, `bits` of them. What of it lies past bit 15 is zero.
#[tactic(auto, using(crate::proofs::Fields::bits_outside, crate::proofs::Fields::bits_wide))]
pub fn bits_at(w: u16, at: u16, bits: u16) -> u16
    ensures { result ≡ words.bits_at w at bits }
{
    if at > 15 {
        return 0;
    }
    if bits > 15 {
        return w >> at;
    }
    cut(w, at, bits)
}

// Whether bit `at` of a word is set. A bit past 15 is not.
pub fn is_set(w: u16, at: u16) -> bool
    ensures { result ≡ words.bit w at }
{
    bits_at(w, at, 1) == 1
}

// The control code for the command unit, CUC, of a command word.
pub fn cu_control(w: u16) -> u16
    ensures { result ≡ words.cuc w }
{
    bits_at(w, CUC, CODE_BITS)
}

// The control code for the receive unit, RUC, of a command word.
pub fn ru_control(w: u16) -> u16
    ensures { result ≡ words.ruc w }
{
    bits_at(w, RUC, CODE_BITS)
}

// Whether a command word asks for a reset.
pub fn resets(w: u16) -> bool
    ensures { result ≡ words.resets w }
{
    is_set(w, RESET)
}

// ---- the control tables: for each control code, 0 to 7, a row with the state that it leads a unit to from each of its states

const CODES: usize = 8;

const STATES: usize = 4;

// The states' numbers: the command unit's as CUS has them, the receive unit's by their columns.
pub const IDLE: u8 = CuState::Idle as u8;

pub const SUSPENDED: u8 = CuState::Suspended as u8;

pub const ACTIVE: u8 = CuState::Active as u8;

pub const NO_RESOURCES: u8 = RuState::NoResources as u8;

pub const READY: u8 = RuState::Ready as u8;

// The command unit has three: a fourth number is none's, and leads to Idle whatever the code.
const NO_STATE: u8 = IDLE;

// The command unit, from Idle, Suspended, Active, and the number that is no state's. Every code but four does nothing.
const CU_STAYS: [u8; STATES] = [IDLE, SUSPENDED, ACTIVE, NO_STATE];

static CU_NEXT: [[u8; STATES]; CODES] = [
    CU_STAYS,
    // 1 START: Idle, Suspended to Active.
    [ACTIVE, ACTIVE, ACTIVE, NO_STATE],
    // 2 RESUME: Suspended to Active.
    [IDLE, ACTIVE, ACTIVE, NO_STATE],
    // 3 SUSPEND: Active to Suspended, at the end of a begun command, else at once: the room code_control.
    [IDLE, SUSPENDED, SUSPENDED, NO_STATE],
    // 4 ABORT: any to Idle.
    [IDLE, IDLE, IDLE, NO_STATE],
    CU_STAYS,
    CU_STAYS,
    CU_STAYS,
];

// The receive unit, from Idle, Suspended, No Resources, Ready.
const RU_STAYS: [u8; STATES] = [IDLE, SUSPENDED, NO_RESOURCES, READY];

static RU_NEXT: [[u8; STATES]; CODES] = [
    RU_STAYS,
    // 1 START: Idle, Suspended, No Resources to Ready.
    [READY, READY, READY, READY],
    // 2 RESUME: Suspended to Ready.
    [IDLE, READY, NO_RESOURCES, READY],
    // 3 SUSPEND: Ready to Suspended, at the end of a held frame, else at once: the room code_control.
    [IDLE, SUSPENDED, NO_RESOURCES, SUSPENDED],
    // 4 ABORT: any to Idle.
    [IDLE, IDLE, IDLE, IDLE],
    RU_STAYS,
    RU_STAYS,
    RU_STAYS,
];

// The entry of a table at a control code and a state's number.
fn goes(table: &[[u8; STATES]; CODES], code: u16, s: u8) -> u8
    requires { (code < 8) × (s < 4) }
    ensures { result ≡ get_or (get_or table.now code []) s 0 }
{
    table[code as usize][s as usize]
}

// The number of the state that a command takes the command unit to from the state numbered `s`, as CUS has them.
pub fn cu_goes(command: u16, s: u8) -> u8
    requires { s < 4 }
    ensures { (x : CuState) → s ≡ words.cu_number x → result ≡ words.cu_number (control.cu_next (control.code_of (words.cuc command)) x) }
{
    goes(&CU_NEXT, cu_control(command), s)
}

// The column of the state that a command takes the receive unit to from the state of column `s`.
pub fn ru_goes(command: u16, s: u8) -> u8
    requires { s < 4 }
    ensures { (x : RuState) → s ≡ numbers.ru_column x → result ≡ numbers.ru_column (control.ru_next (control.code_of (words.ruc command)) x) }
{
    goes(&RU_NEXT, ru_control(command), s)
}
