// A channel attention over the units' numbers: the first after reset initialises, every other obeys the command word of the SCB.
// It takes every memory and all numbers; specs/ says what comes of numbers that are a device's, in the words of the room attention.

#![tactic(auto)]

ghost use Rattle.std.specs.Prelude.{◌≡◌, false, [], ◌∷◌, ◌*◌, ◌<◌};
ghost use Rattle.memory.specs.Address as addresses;
ghost use Rattle.memory.specs.Memory as bytes;
ghost use Rattle.scb.specs.Words as words;
ghost use Rattle.device.specs.Change as change;
ghost use Rattle.device.specs.State as states;
ghost use Rattle.device.specs.declared.Cu.{Cu};
ghost use Rattle.device.specs.declared.Device.{Device};
ghost use Rattle.device.specs.declared.Ru.{Ru};
ghost use Rattle.device.specs.declared.Units.{Units};
ghost use Rattle.actions.specs.Setup.{setup_of};
ghost use Rattle.phases.specs.Phases.{cu_tag, ru_tag};
ghost use Rattle.packed.specs.Packed as packs;
ghost use Rattle.packed.specs.SetUp as setups;
ghost use Rattle.control.specs.Obey as obeys;
ghost use Rattle.attention.specs.Attention as attentions;
ghost use Rattle.attention.specs.Status as statuses;
ghost use Rattle.code_attention.specs.Attends as attends;

use memory::{Offset, RealAddress};
use packed::{CNA, CX, Packed, RNR, cu, ru, setup};

// The SCB: +0 status, +2 command; CBL and RFA offset are the room code_control's to say, the error counters `device`'s.
const STATUS: u16 = 0;

const COMMAND: u16 = 2;

// The SCP: +6 where the ISCP is. The ISCP: +0 BUSY, +2 the SCB's offset, +4 the SCB's base.
const ISCP: u16 = 6;

const BUSY: u16 = 0;

const SCB_OFFSET: u16 = 2;

const SCB_BASE: u16 = 4;

// The status word: the events from bit 12 on, CUS from bit 8 on, RUS from bit 4 on.
const EVENTS: u16 = 12;

const CUS: u16 = 8;

const RUS: u16 = 4;

// The status after the first attention: CX and CNA, both units Idle.
const INITIAL: u16 = 0xA000;

// The command word: from bit 12 on it acknowledges events; CUC and RUC together.
const ACKNOWLEDGED: u16 = 12;

const CODES: u16 = 0x0770;

// RUS of Ready.
const RUS_READY: u16 = 4;

// The events of an initialisation.
const INITIAL_EVENTS: u64 = CX + CNA;

// The setup after reset: the minimum length, and each byte of the own address.
const MINIMUM: u8 = 64;

const OWN: u8 = 255;

// ---- the SCB's status

// RUS of the receive unit's tag; 3 is no state's.
fn ru_number(tag: u64) -> u16
    ensures { (result < 8) × ((v : Ru) → tag ≡ ru_tag v → result ≡ words.ru_number (states.ru_state v)) }
{
    if tag < ru::READY {
        return tag as u16;
    }
    RUS_READY
}

// The status word of its fields. The bits that are no field's are zero.
#[tactic(auto, using(crate::proofs::States::status_joined))]
fn status_word(events: u16, cus: u16, rus: u16) -> u16
    requires { (events < 16) × (cus < 8) × (rus < 8) }
    ensures { result ≡ words.joined (words.joined (words.joined 0 4 rus) 8 cus) 12 events }
{
    (rus << RUS) | (cus << CUS) | (events << EVENTS)
}

// The SCB's status is written.
pub fn write_status(memory: &mut [u8], k: Packed)
    ensures { (u : Units) → packs.PackedIs u k → memory.new ≡ bytes.apply (statuses.status_to u ∷ []) memory.old }
{
    let cus = code_control::cu_number(packed::cu_tag(k)) as u16;
    let rus = ru_number(packed::ru_tag(k));
    let status = status_word(packed::events(k) as u16, cus, rus);
    memory::put_word(
        memory,
        memory::place(packed::base(k), packed::scb(k), STATUS),
        status,
    );
}

// ---- the first attention after reset

// BUSY is cleared, the SCB's status A000h and its command 0 are written.
fn initial_writes(memory: &mut [u8], iscp: RealAddress, base: RealAddress, scb: Offset)
    ensures { memory.new ≡ bytes.apply (attentions.initial_writes iscp base scb) memory.old }
{
    memory::put_byte(memory, memory::beyond(iscp, BUSY), 0);
    memory::put_word(memory, memory::place(base, scb, STATUS), INITIAL);
    memory::put_word(memory, memory::place(base, scb, COMMAND), 0);
}

// The ISCP: the real address at FFFFFCh, which is the SCP's pointer.
#[tactic(auto, unfolding(attention::specs::Attention::iscp_of))]
fn iscp_of(memory: &[u8]) -> RealAddress
    ensures { result ≡ attentions.iscp_of memory.now }
{
    memory::real_at(memory, memory::beyond(memory::scp(), ISCP))
}

// The SCB's base, which has 24 bits.
fn base_of(memory: &[u8], iscp: RealAddress) -> RealAddress
    ensures { (result ≡ addresses.address_at memory.now (addresses.beyond iscp 4)) × (result.0 < 16777216) }
{
    memory::real_at(memory, memory::beyond(iscp, SCB_BASE))
}

// The first attention after reset. The command word is not obeyed.
fn initialise(memory: &mut [u8], k: Packed) -> Packed
    ensures { (d : Device) → packs.PackedIs d.units k
        → attends.Leaves (attentions.initialise d memory.old) memory.old result memory.new }
{
    let iscp = iscp_of(memory);
    let base = base_of(memory, iscp);
    let scb = memory::offset_at(memory, memory::beyond(iscp, SCB_OFFSET));
    initial_writes(memory, iscp, base, scb);
    packed::initialised_at(k, base, scb, INITIAL_EVENTS)
}

// ---- the control codes

// The acknowledged events are cleared: bits 15 to 12 of the command stand for them in their order.
fn acknowledge(k: Packed, command: u16) -> Packed
    ensures { (u : Units) → packs.PackedIs u k → packs.PackedIs (change.with_events u (words.acknowledged u.events command)) result }
{
    packed::without_events(k, (command >> ACKNOWLEDGED) as u64)
}

// CNA if the command unit left Active. Not one with `left_ready`: over both it would speak of tags alone, and what they say of each unit would take
// two functions all the same.
fn left_active(before: u64, after: u64) -> u64
    ensures { (result < 3) × ((b a : Cu) → before ≡ cu_tag b → after ≡ cu_tag a → result ≡ 2 * words.one (attends.left_active b a)) }
{
    if before < cu::WAITING {
        return 0;
    }
    if after < cu::WAITING {
        return CNA;
    }
    0
}

// RNR if the receive unit left Ready.
fn left_ready(before: u64, after: u64) -> u64
    ensures { (result < 2) × ((b a : Ru) → before ≡ ru_tag b → after ≡ ru_tag a → result ≡ words.one (attends.left_ready b a)) }
{
    if before < ru::READY {
        return 0;
    }
    if after < ru::READY {
        return RNR;
    }
    0
}

// Acknowledge, CUC, RUC.
fn obey_codes(memory: &mut [u8], k: Packed, command: u16) -> Packed
    ensures { (u : Units) → packs.PackedIs u k → attends.Obeys (attends.codes u command memory.old) memory.old result memory.new }
{
    let base = packed::base(k);
    let scb = packed::scb(k);
    let cu = packed::cu_unit(k);
    let ru = packed::ru_unit(k);
    let c = code_control::obey_cuc(memory, base, scb, cu, command);
    let r = code_control::obey_ruc(memory, base, scb, ru, command);
    let raised = left_active(cu.tag, c.tag) + left_ready(ru.tag, r.tag);
    packed::after_codes(acknowledge(k, command), c, r, raised)
}

// The units after a command. Where both codes are 0, as in most commands, a unit stays as it is.
#[tactic(auto, using(crate::proofs::Codes::codes_none))]
fn obeyed(memory: &mut [u8], k: Packed, command: u16) -> Packed
    ensures { (u : Units) → packs.PackedIs u k → attends.Obeys (attends.codes u command memory.old) memory.old result memory.new }
{
    if command & CODES == 0 {
        return acknowledge(k, command);
    }
    obey_codes(memory, k, command)
}

// ---- every other attention

// Command 0 is written.
#[tactic(auto, using(packed::proofs::Laws::base_is, packed::proofs::Laws::scb_is), unfolding(memory::specs::Address::place))]
fn clear_command(memory: &mut [u8], k: Packed)
    ensures { (u : Units) → packs.PackedIs u k → memory.new ≡ bytes.apply (attends.command_to u ∷ []) memory.old }
{
    memory::put_word(
        memory,
        memory::place(packed::base(k), packed::scb(k), COMMAND),
        0,
    );
}

// Acknowledge, CUC, RUC, status, command.
fn obey(memory: &mut [u8], k: Packed, command: u16) -> Packed
    ensures { (d : Device) → packs.PackedIs d.units k
        → attends.Leaves (attentions.attend_by false d command memory.old) memory.old result memory.new }
{
    let after = obeyed(memory, k, command);
    write_status(memory, after);
    clear_command(memory, after);
    after
}

// The command word of the SCB.
#[tactic(auto, using(packed::proofs::Laws::base_is, packed::proofs::Laws::scb_is), unfolding(memory::specs::Address::place))]
fn command_of(memory: &[u8], k: Packed) -> u16
    ensures { (u : Units) → packs.PackedIs u k → result ≡ bytes.word_at memory.now (obeys.of_scb u 2) }
{
    memory::word_at(
        memory,
        memory::place(packed::base(k), packed::scb(k), COMMAND),
    )
}

// The units after reset.
#[tactic(auto, using(crate::proofs::States::fresh_is))]
fn fresh() -> Packed
    ensures { packs.PackedIs states.fresh_units result }
{
    Packed {
        status: 0,
        cu: 0,
        ru: 0,
        rest: 0,
    }
}

// The setup after reset: minimum length 64, six FFh for the address, all else zero.
fn renew(setup: &mut [u8; setup::SIZE])
    ensures { setup.new ≡ setups.setup_bytes (setup_of states.fresh) }
{
    *setup = [0; setup::SIZE];
    setup[setup::MINIMUM] = MINIMUM;
    setup[setup::OWN..setup::FILTER].fill(OWN);
}

// ---- an attention

// The units after an attention, and whether it reports an edge. It sends nothing.
#[derive(Clone, Copy)]
pub struct Attended {
    pub packed: Packed,
    pub edge: bool,
}

// An attention to an initialised chip: the command word is read once.
fn attend_initialised(memory: &mut [u8], setup: &mut [u8; setup::SIZE], k: Packed) -> Attended
    ensures { (d : Device) → packs.PackedIs d.units k → setups.SetIs (setup_of d) setup.old
        → attends.Attends (attentions.attend d memory.old) memory.old result memory.new setup.new }
{
    let command = command_of(memory, k);
    if scb::resets(command) {
        clear_command(memory, k);
        renew(setup);
        return Attended {
            packed: fresh(),
            edge: false,
        };
    }
    let after = obey(memory, k, command);
    Attended {
        packed: after,
        edge: packed::events(after) != 0,
    }
}

// A channel attention: the first after reset initialises; every other is attended to.
pub fn attend(memory: &mut [u8], setup: &mut [u8; setup::SIZE], k: Packed) -> Attended
    ensures { (d : Device) → packs.PackedIs d.units k → setups.SetIs (setup_of d) setup.old
        → attends.Attends (attentions.attention d memory.old) memory.old result memory.new setup.new }
{
    if packed::initialised(k) {
        return attend_initialised(memory, setup, k);
    }
    Attended {
        packed: initialise(memory, k),
        edge: true,
    }
}
