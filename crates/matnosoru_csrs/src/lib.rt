// The exported functions of what a hart has and counts with: CSRs, tables of eight harts, addresses; and the header's number. Each is thin
// over the crates below.
#![tactic(auto)]

ghost use Rattle.std.specs.Prelude.{◌≡◌, ◌+◌, ◌*◌, ◌%◌, ◌^◌, ◌<◌, if◌then◌else◌};
ghost use Rattle.utils.specs.Width.{width_from};
ghost use Rattle.csrs.specs.Gates.{decode_csr_def, available};
ghost use Rattle.csrs.specs.Count.{count_def};
ghost use Rattle.abi.specs.Abi.{profile};
ghost use Rattle.matnosoru_csrs.specs.Csrs.{lookup_code, place_of, TablesDiffer, extended_by};

use csrs::Absent;
use differences::Difference;
use refusals::Refusal;
use utils::Width;

// The header's MATNOSORU_VERSION.
const VERSION: u64 = 4;

// The number of the header that the archive fits.
#[unsafe(no_mangle)]
pub extern "C" fn matnosoru_version() -> u64
    ensures { result ≡ 4 }
{
    VERSION
}

// Whether the CSR at an address is available: 1 or 0.
#[unsafe(no_mangle)]
pub extern "C" fn matnosoru_csr(flags: u64, custom: u64, address: u64) -> u64
    ensures { result ≡ (if available (profile flags custom) address then 1 else 0) }
{
    u64::from(csrs::is_available(abi::profile_of(flags, custom), address as usize))
}

// What an address has: 1 a CSR that is available, 2 one that only other profiles make available, 3 none.
#[unsafe(no_mangle)]
pub extern "C" fn matnosoru_csr_lookup(flags: u64, custom: u64, address: u64) -> u64
    ensures { result ≡ lookup_code (decode_csr_def (profile flags custom) address) }
{
    match csrs::decode_csr(abi::profile_of(flags, custom), address as usize) {
        Ok(_) => 1,
        Err(Absent::GateOff) => 2,
        Err(Absent::NoSuch) => 3,
    }
}

// How many CSRs are available.
#[unsafe(no_mangle)]
pub extern "C" fn matnosoru_csr_count(flags: u64, custom: u64) -> u64
    ensures { result ≡ count_def (profile flags custom) }
{
    csrs::count(abi::profile_of(flags, custom)) as u64
}

// Where two tables of eight profiles differ first.
#[unsafe(no_mangle)]
pub extern "C" fn matnosoru_tables_differ(a: &[u8], b: &[u8]) -> u64
    ensures { TablesDiffer a.now b.now result }
{
    if a.len() != 80 || b.len() != 80 {
        return refusals::crossed(Err(Refusal::OutputShort));
    }
    match differences::first_difference(harts::table_of(a), harts::table_of(b)) {
        Some(first) => place_of(first),
        None => 32768,
    }
}

fn place_of(first: Difference) -> u64
    requires { (first.hart < 8) × (first.csr < 4096) }
    ensures { result ≡ place_of first }
{
    (first.hart * 4096 + first.csr) as u64
}

// A value of so many bytes with its sign copied upwards; a number of bytes that is no width leaves it.
#[unsafe(no_mangle)]
pub extern "C" fn matnosoru_sign_extend(value: u64, bytes: u64) -> u64
    ensures { result ≡ extended_by (width_from (8 * bytes)) value }
{
    if 8 < bytes {
        return value;
    }
    match Width::try_from(8 * bytes as usize) {
        Ok(width) => utils::sign_extend(value as usize, width) as u64,
        Err(_) => value,
    }
}

// The address of an access: base plus immediate, modulo 2^64. A negative immediate is in two's complement.
#[unsafe(no_mangle)]
pub extern "C" fn matnosoru_calculate_addr(base: u64, imm: u64) -> u64
    ensures { result ≡ (base + imm) % 2 ^ 64 }
{
    base.wrapping_add(imm)
}
