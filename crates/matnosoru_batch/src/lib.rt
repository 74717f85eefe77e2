// The exported batch: a night's traps in one call. It is thin over `batch`.
#![tactic(auto)]

ghost use Rattle.std.specs.Prelude.{◌≡◌};
ghost use Rattle.matnosoru_batch.specs.Batch.{answer_of, low_half, slots_or, output_of};

use refusals::Refusal;

// Writes a slot of twelve bytes for each entry to the front of a buffer: how many slots, in 32 bits, or the refusal: 17 where the lists are
// not of one length, 14 where the table is not eighty bytes, 14 where the buffer is shorter than the slots.
#[unsafe(no_mangle)]
pub extern "C" fn matnosoru_batch(
    table: &[u8],
    words: &[u64],
    harts: &[u8],
    readings: &[u8],
    out: &mut [u8],
) -> u64
    ensures value { result ≡ slots_or (answer_of table.now words.now harts.now readings.now out.old) }
    ensures out_after { out.new ≡ output_of table.now words.now harts.now readings.now out.old }
{
    refusals::crossed(slots(table, words, harts, readings, out))
}

fn slots(
    table: &[u8],
    words: &[u64],
    harts: &[u8],
    readings: &[u8],
    out: &mut [u8],
) -> Result<u64, Refusal>
    ensures value { result ≡ low_half (answer_of table.now words.now harts.now readings.now out.old) }
    ensures out_after { out.new ≡ output_of table.now words.now harts.now readings.now out.old }
{
    if words.len() != harts.len() {
        return Err(Refusal::ListLengths);
    }
    if words.len() != readings.len() {
        return Err(Refusal::ListLengths);
    }
    if table.len() != 80 {
        return Err(Refusal::OutputShort);
    }
    let n = batch::batch(harts::table_of(table), words, harts, readings, out)?;
    Ok(n as u64 % 0x1_0000_0000)
}
