// How a profile and a written length cross the C ABI: what the exported crates have in common.
#![tactic(auto)]

ghost use Rattle.std.specs.Prelude.{◌≡◌};
ghost use Rattle.abi.specs.Abi.{profile, length_or};
ghost use Rattle.refusals.specs.Answer.{crossed};

use profiles::Profile;
use refusals::Refusal;

// The profile of the two words that it crosses as.
pub fn profile_of(flags: u64, custom: u64) -> Profile
    ensures { result ≡ profile flags custom }
{
    Profile::from_flags((flags % 256) as u8, custom)
}

// How many bytes were put at the front of a buffer, or the refusal.
pub fn length_of(emitted: Result<usize, Refusal>) -> u64
    ensures { result ≡ crossed emitted }
{
    length_or(emitted.map_err(|why| why.number()))
}

// The same where the refusal is a number, which may be any.
pub fn length_or(emitted: Result<usize, u8>) -> u64
    ensures { result ≡ length_or emitted }
{
    match emitted {
        Ok(len) => len as u64,
        Err(number) => refusals::high_half(number),
    }
}
