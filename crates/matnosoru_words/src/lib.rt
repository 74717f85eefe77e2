// The exported functions of words, as C has them: the three readings, and the writing of a word and of its record. Each is thin over the
// crates below.
#![tactic(auto)]

ghost use Rattle.std.specs.Prelude.{◌≡◌, length};
ghost use Rattle.refusals.specs.Answer.{crossed};
ghost use Rattle.log_writer.specs.Written.{written_def, written_out};
ghost use Rattle.traps.specs.declared.Reading.TheVariants.{Load, Store};
ghost use Rattle.traps.specs.Trapped.{trapped_def};
ghost use Rattle.instruction_word.specs.InstructionWord.{instruction_word, system_word};
ghost use Rattle.instruction_word.specs.Written.{written};
ghost use Rattle.abi.specs.Abi.{profile};
ghost use Rattle.matnosoru_words.specs.Words.{instruction_bytes};

use log_kinds::Kind;
use profiles::Profile;
use refusals::Refusal;

// The SYSTEM reading of a raw word, as an instruction word.
#[unsafe(no_mangle)]
pub extern "C" fn matnosoru_read_system(flags: u64, custom: u64, raw: u64) -> u64
    ensures { result ≡ system_word (profile flags custom) raw }
{
    instruction_word::read_system(abi::profile_of(flags, custom), raw as usize)
}

// The load reading.
#[unsafe(no_mangle)]
pub extern "C" fn matnosoru_read_load(flags: u64, custom: u64, raw: u64) -> u64
    ensures { result ≡ instruction_word (profile flags custom) (trapped_def (profile flags custom) Load raw) }
{
    instruction_word::read_load(abi::profile_of(flags, custom), raw as usize)
}

// The store reading.
#[unsafe(no_mangle)]
pub extern "C" fn matnosoru_read_store(flags: u64, custom: u64, raw: u64) -> u64
    ensures { result ≡ instruction_word (profile flags custom) (trapped_def (profile flags custom) Store raw) }
{
    instruction_word::read_store(abi::profile_of(flags, custom), raw as usize)
}

// The word that an instruction word is written as, or the refusal.
#[unsafe(no_mangle)]
pub extern "C" fn matnosoru_write(flags: u64, custom: u64, instruction_word: u64) -> u64
    ensures { result ≡ crossed (written (profile flags custom) instruction_word) }
{
    let ctx = abi::profile_of(flags, custom);
    refusals::crossed(instruction_word::write(ctx, instruction_word))
}

// Writes the log record of an instruction word to the front of a buffer: its length, or the refusal, 14 last.
#[unsafe(no_mangle)]
pub extern "C" fn matnosoru_write_instruction(
    flags: u64,
    custom: u64,
    instruction_word: u64,
    out: &mut [u8],
) -> u64
    ensures value { result ≡ crossed (written_def (instruction_bytes (written (profile flags custom) instruction_word) instruction_word) (length out.old)) }
    ensures out_after { out.new ≡ written_out (instruction_bytes (written (profile flags custom) instruction_word) instruction_word) out.old }
{
    let ctx = abi::profile_of(flags, custom);
    abi::length_of(put_instruction(ctx, instruction_word, out))
}

// Where an instruction word has a word, its own bytes are its record.
fn put_instruction(ctx: Profile, n: u64, out: &mut [u8]) -> Result<usize, Refusal>
    ensures value { result ≡ written_def (instruction_bytes (written ctx n) n) (length out.old) }
    ensures out_after { out.new ≡ written_out (instruction_bytes (written ctx n) n) out.old }
{
    instruction_word::write(ctx, n)?;
    let kind = Kind::try_from((n % 256) as u8)?;
    let len = kind.record_length();
    let b = octets::le_bytes(n);
    octets::emit(&b[..len], out)
}
