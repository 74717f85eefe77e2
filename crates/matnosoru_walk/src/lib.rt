// The exported functions that walk over a whole trap log: its state at the start, and past each record. Each is thin over the crates below.
#![tactic(auto)]

ghost use Rattle.std.specs.Prelude.{◌≡◌, cond, ◌*◌, ◌^◌, eqb, length};
ghost use Rattle.refusals.specs.Answer.{crossed};
ghost use Rattle.state_bytes.specs.StateBytes.{started_out, current_at};
ghost use Rattle.log_steps.specs.Next.{read_under, record_length, next_state};

use refusals::Refusal;

// Makes the state with which a log begins: its length, or 14 where there are not as many bytes.
#[unsafe(no_mangle)]
pub extern "C" fn matnosoru_start(state: &mut [u8]) -> u64
    ensures value { result ≡ cond (eqb (length state.old) 81) 81 (14 * 2 ^ 32) }
    ensures state_after { state.new ≡ started_out state.old }
{
    if state.len() != 81 {
        return refusals::crossed(Err(Refusal::OutputShort));
    }
    state_bytes::start(state);
    81
}

// Reads the first record of a log under the state's current hart, and moves the state past it: the record's length, or the refusal,
// those of the state first.
#[unsafe(no_mangle)]
pub extern "C" fn matnosoru_next(state: &mut [u8], log: &[u8]) -> u64
    ensures value { result ≡ crossed (record_length (read_under (current_at state.old) log.now)) }
    ensures state_after { state.new ≡ next_state state.old (read_under (current_at state.old) log.now) }
{
    refusals::crossed(next(state, log))
}

fn next(state: &mut [u8], log: &[u8]) -> Result<u64, Refusal>
    ensures value { result ≡ record_length (read_under (current_at state.old) log.now) }
    ensures state_after { state.new ≡ next_state state.old (read_under (current_at state.old) log.now) }
{
    let ctx = state_bytes::current_of(state)?;
    let (record, len) = log_reader::read_record(ctx, log)?;
    log_steps::move_past(state, record);
    Ok(len as u64)
}
