// What C links: the five calls by their C names, each the library's. A crate is a library or an archive, and the replay program needs the one, C the
// other: so the five stand here once more.

#![tactic(auto)]

ghost use Rattle.calls.specs.Calls as calls;

// Reset takes the record alone, ignores its content and writes a fresh one.
#[unsafe(no_mangle)]
pub extern "C" fn lq_reset(kept: &mut [u8]) -> u64
    ensures { calls.Renews (calls.reset_call kept.old) result kept.new }
{
    lentoquist::lq_reset(kept)
}

// A channel attention.
#[unsafe(no_mangle)]
pub extern "C" fn lq_attention(
    memory: &mut [u8],
    holding: &mut [u8],
    outgoing: &mut [u8],
    kept: &mut [u8],
) -> u64
    ensures { calls.Calls (calls.attention_call
        (calls.areas_of memory.old holding.old outgoing.old kept.old))
        result memory.new holding.new outgoing.new kept.new }
{
    lentoquist::lq_attention(memory, holding, outgoing, kept)
}

// A frame arrives, with the line side's verdict.
#[unsafe(no_mangle)]
pub extern "C" fn lq_arrival(
    memory: &mut [u8],
    holding: &mut [u8],
    outgoing: &mut [u8],
    kept: &mut [u8],
    frame: &[u8],
    verdict: u32,
) -> u64
    ensures { calls.Calls (calls.arrival_call
        (calls.areas_of memory.old holding.old outgoing.old kept.old) frame.now verdict)
        result memory.new holding.new outgoing.new kept.new }
{
    lentoquist::lq_arrival(memory, holding, outgoing, kept, frame, verdict)
}

// A turn, with the line report that counts if it is the end turn of a Transmit: a run of one turn, which no answer of a turn counts.
#[unsafe(no_mangle)]
pub extern "C" fn lq_turn(
    memory: &mut [u8],
    holding: &mut [u8],
    outgoing: &mut [u8],
    kept: &mut [u8],
    report: u16,
) -> u64
    ensures { calls.Calls (calls.turn_call
        (calls.areas_of memory.old holding.old outgoing.old kept.old) report)
        result memory.new holding.new outgoing.new kept.new }
{
    lentoquist::lq_turn(memory, holding, outgoing, kept, report)
}

// Turns in a row, until `budget` are taken or one has sent a frame of at least one byte, reported an edge or found no work. The record is read and
// written once.
#[unsafe(no_mangle)]
pub extern "C" fn lq_run(
    memory: &mut [u8],
    holding: &mut [u8],
    outgoing: &mut [u8],
    kept: &mut [u8],
    report: u16,
    budget: u16,
) -> u64
    ensures { calls.Calls (calls.run_call
        (calls.areas_of memory.old holding.old outgoing.old kept.old) report budget)
        result memory.new holding.new outgoing.new kept.new }
{
    lentoquist::lq_run(memory, holding, outgoing, kept, report, budget)
}
