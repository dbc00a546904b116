// The five calls, each one call of code_calls. They take slices of every length and every content. The room calls says what each answers and leaves
// in every lent byte. What C links is lentoquist_c.

#![tactic(auto)]

ghost use Rattle.calls.specs.Calls as calls;

use code_calls::Asked;

// Where in an answer the turns of a run are counted.
const TURN: u64 = 1 << 48;

// Reset takes the record alone, ignores its content and writes a fresh one.
pub fn lq_reset(kept: &mut [u8]) -> u64
    ensures { calls.Renews (calls.reset_call kept.old) result kept.new }
{
    code_calls::reset(kept)
}

// A channel attention.
pub fn lq_attention(
    memory: &mut [u8],
    holding: &mut [u8],
    outgoing: &mut [u8],
    kept: &mut [u8],
) -> u64
    ensures { calls.Calls (calls.attention_call
        (calls.areas_of memory.old holding.old outgoing.old kept.old))
        result memory.new holding.new outgoing.new kept.new }
{
    let no_frame: [u8; 0] = [0; 0];
    code_calls::call(
        memory,
        holding,
        outgoing,
        kept,
        Asked::Attention,
        &no_frame,
        0,
        0,
        0,
    )
}

// A frame arrives, with the line side's verdict.
pub fn lq_arrival(
    memory: &mut [u8],
    holding: &mut [u8],
    outgoing: &mut [u8],
    kept: &mut [u8],
    frame: &[u8],
    verdict: u32,
) -> u64
    ensures { calls.Calls (calls.arrival_call
        (calls.areas_of memory.old holding.old outgoing.old kept.old) frame.now verdict)
        result memory.new holding.new outgoing.new kept.new }
{
    code_calls::call(
        memory,
        holding,
        outgoing,
        kept,
        Asked::Arrival,
        frame,
        verdict,
        0,
        0,
    )
}

// A turn, with the line report that counts if it is the end turn of a Transmit: a run of one turn, which no answer of a turn counts.
pub fn lq_turn(
    memory: &mut [u8],
    holding: &mut [u8],
    outgoing: &mut [u8],
    kept: &mut [u8],
    report: u16,
) -> u64
    ensures { calls.Calls (calls.turn_call
        (calls.areas_of memory.old holding.old outgoing.old kept.old) report)
        result memory.new holding.new outgoing.new kept.new }
{
    let no_frame: [u8; 0] = [0; 0];
    code_calls::call(
        memory,
        holding,
        outgoing,
        kept,
        Asked::Turns,
        &no_frame,
        report as u32,
        1,
        0,
    )
}

// Turns in a row, until `budget` are taken or one has sent a frame of at least one byte, reported an edge or found no work. The record is read and
// written once.
pub fn lq_run(
    memory: &mut [u8],
    holding: &mut [u8],
    outgoing: &mut [u8],
    kept: &mut [u8],
    report: u16,
    budget: u16,
) -> u64
    ensures { calls.Calls (calls.run_call
        (calls.areas_of memory.old holding.old outgoing.old kept.old) report budget)
        result memory.new holding.new outgoing.new kept.new }
{
    let no_frame: [u8; 0] = [0; 0];
    code_calls::call(
        memory,
        holding,
        outgoing,
        kept,
        Asked::Turns,
        &no_frame,
        report as u32,
        budget,
        TURN,
    )
}
