// The exported functions of the trap log for a record by itself, under a profile. Each is thin over the crates below.
#![tactic(auto)]

ghost use Rattle.std.specs.Prelude.{◌≡◌, length};
ghost use Rattle.profiles.specs.Profile.{empty_profile};
ghost use Rattle.log_records.specs.declared.Record.TheVariants.{Refusal, Hart};
ghost use Rattle.log_records.specs.Record.{record_def};
ghost use Rattle.log_writer.specs.Written.{written_def, written_out};
ghost use Rattle.log_reader.specs.Read.{parse};
ghost use Rattle.log_steps.specs.Next.{record_length};
ghost use Rattle.log_steps.specs.Lines.{line_def, line_out};
ghost use Rattle.refusals.specs.Answer.{crossed};
ghost use Rattle.abi.specs.Abi.{profile};

use log_records::Record;
use profiles::Profile;

// Checks the first record of a log under the current profile: its length, or the refusal.
#[unsafe(no_mangle)]
pub extern "C" fn matnosoru_read_record(flags: u64, custom: u64, log: &[u8]) -> u64
    ensures { result ≡ crossed (record_length (parse (profile flags custom) log.now)) }
{
    let answer = log_reader::read_record(abi::profile_of(flags, custom), log);
    refusals::crossed(answer.map(|(_, len)| len as u64))
}

// Writes the listing's line for the first record of a log, whose place in the whole log is told: the record's length and 2^16 times the
// line's, or the record's refusal, 14 last.
#[unsafe(no_mangle)]
pub extern "C" fn matnosoru_line(
    flags: u64,
    custom: u64,
    at: u64,
    log: &[u8],
    out: &mut [u8],
) -> u64
    ensures value { result ≡ crossed (line_def (profile flags custom) at (parse (profile flags custom) log.now) (length out.old)) }
    ensures out_after { out.new ≡ line_out (profile flags custom) at (parse (profile flags custom) log.now) out.old }
{
    // One byte is no state, so nothing is moved.
    let mut none = [0u8; 1];
    let ctx = abi::profile_of(flags, custom);
    refusals::crossed(log_steps::line_past(ctx, &mut none, at, log, out))
}

// Writes the log record of a refused word.
#[unsafe(no_mangle)]
pub extern "C" fn matnosoru_write_refusal(
    reading: u64,
    number: u64,
    raw: u64,
    out: &mut [u8],
) -> u64
    ensures value { result ≡ crossed (written_def (record_def empty_profile (Refusal reading number raw)) (length out.old)) }
    ensures out_after { out.new ≡ written_out (record_def empty_profile (Refusal reading number raw)) out.old }
{
    let record = Record::Refusal {
        reading: reading as usize,
        number: number as usize,
        raw: raw as usize,
    };
    put_record(record, out)
}

// Writes the log record that sets a hart's profile.
#[unsafe(no_mangle)]
pub extern "C" fn matnosoru_write_profile(hart: u64, flags: u64, custom: u64, out: &mut [u8]) -> u64
    ensures value { result ≡ crossed (written_def (record_def empty_profile (Hart hart (profile flags custom))) (length out.old)) }
    ensures out_after { out.new ≡ written_out (record_def empty_profile (Hart hart (profile flags custom))) out.old }
{
    let profile = abi::profile_of(flags, custom);
    let record = Record::Hart {
        hart: hart as usize,
        profile,
    };
    put_record(record, out)
}

// Writes a record that needs no profile: the answer is the number that crosses.
fn put_record(record: Record, out: &mut [u8]) -> u64
    ensures value { result ≡ crossed (written_def (record_def empty_profile «record») (length out.old)) }
    ensures out_after { out.new ≡ written_out (record_def empty_profile «record») out.old }
{
    abi::length_of(log_writer::write_record(Profile::from_flags(0, 0), record, out))
}
