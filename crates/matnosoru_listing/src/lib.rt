// The exported functions of a whole log's listing: its lines, in order. Each is thin over the crates below.
#![tactic(auto)]

ghost use Rattle.std.specs.Prelude.{◌≡◌, length};
ghost use Rattle.octets.specs.Bytes.{emitted, emitted_out};
ghost use Rattle.state_bytes.specs.StateBytes.{current_at};
ghost use Rattle.log_lines.specs.Lines.{header, end_line};
ghost use Rattle.refusals.specs.Answer.{crossed};
ghost use Rattle.matnosoru_listing.specs.Lines.{next_line, next_line_out, next_line_state, bad_def, bad_out};

use refusals::Refusal;

// Writes the listing's first line to the front of a buffer: its length, or 14.
#[tactic(auto, using(text::proofs::Fits::text_back))]
#[unsafe(no_mangle)]
pub extern "C" fn matnosoru_header(out: &mut [u8]) -> u64
    ensures value { result ≡ crossed (emitted header (length out.old)) }
    ensures out_after { out.new ≡ emitted_out header out.old }
{
    abi::length_of(text::emit_line(log_lines::header(), out))
}

// Writes the line of the first record of a log, read under the state's current hart, and moves the state past it: the record's length and
// 2^16 times the line's, or the refusal, those of the state first and 14 last.
#[unsafe(no_mangle)]
pub extern "C" fn matnosoru_next_line(state: &mut [u8], at: u64, log: &[u8], out: &mut [u8]) -> u64
    ensures value { result ≡ crossed (next_line (current_at state.old) at log.now (length out.old)) }
    ensures out_after { out.new ≡ next_line_out (current_at state.old) at log.now out.old }
    ensures state_after { state.new ≡ next_line_state (current_at state.old) at log.now (length out.old) state.old }
{
    refusals::crossed(next_line(state, at, log, out))
}

fn next_line(state: &mut [u8], at: u64, log: &[u8], out: &mut [u8]) -> Result<u64, Refusal>
    ensures value { result ≡ next_line (current_at state.old) at log.now (length out.old) }
    ensures out_after { out.new ≡ next_line_out (current_at state.old) at log.now out.old }
    ensures state_after { state.new ≡ next_line_state (current_at state.old) at log.now (length out.old) state.old }
{
    let ctx = state_bytes::current_of(state)?;
    log_steps::line_past(ctx, state, at, log, out)
}

// Writes the last line of a log of so many bytes that is accepted throughout.
#[tactic(auto, using(text::proofs::Fits::text_back, log_lines::proofs::Fits::end_fits))]
#[unsafe(no_mangle)]
pub extern "C" fn matnosoru_end_line(at: u64, out: &mut [u8]) -> u64
    ensures value { result ≡ crossed (emitted (end_line at) (length out.old)) }
    ensures out_after { out.new ≡ emitted_out (end_line at) out.old }
{
    abi::length_of(text::emit_line(log_lines::end_line(at), out))
}

// Writes the last line of a log with a bad record at a place; 13 where the number is not 1 to 255, 14 last.
#[tactic(auto, using(text::proofs::Fits::text_back, log_lines::proofs::Fits::bad_fits))]
#[unsafe(no_mangle)]
pub extern "C" fn matnosoru_bad_line(number: u64, at: u64, out: &mut [u8]) -> u64
    ensures value { result ≡ crossed (bad_def number at (length out.old)) }
    ensures out_after { out.new ≡ bad_out number at out.old }
{
    if number == 0 || 255 < number {
        return refusals::crossed(Err(Refusal::Field));
    }
    abi::length_of(text::emit_line(log_lines::bad_line(number as u8, at), out))
}
