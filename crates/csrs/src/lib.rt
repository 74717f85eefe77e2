// Which CSRs each profile makes available: `decode_csr` of Miralis's src/decoder.rs, as a look-up and a gate.
#![tactic(auto)]

ghost use Rattle.std.specs.Prelude.{◌≡◌, ℕ};
ghost use Rattle.csr_addresses.specs.Address.{idx_def};
ghost use Rattle.csrs.specs.Gates.{allows_def, gate_def, spot_def, decode_csr_def, available};
ghost use Rattle.csrs.specs.Count.{count_def};

use csr_addresses::{Csr, address};
use profiles::Profile;

// What a register waits for: nothing, a flag of the profile, a bit of its custom mask, or what no profile has.
#[derive(Clone, Copy)]
pub enum Gate {
    Always,
    Zicntr,
    Zihpm,
    Tee,
    Smode,
    Hmode,
    Sstc,
    Vector,
    Crypto,
    MaskBit(usize),
    Never,
}

// What the look-up has at an address: a register, and what it waits for.
#[derive(Clone, Copy)]
struct Row {
    gate: Gate,
    csr: Csr,
}

// Why a profile has no register at an address.
#[derive(Clone, Copy)]
pub enum Absent {
    // Some profile has one there
    GateOff,
    // No profile has
    NoSuch,
}

// Whether the profile has what the gate asks.
fn allows(ctx: Profile, gate: Gate) -> bool
    ensures { result ≡ allows_def ctx gate }
{
    match gate {
        Gate::Always => true,
        Gate::Zicntr => ctx.has_zicntr,
        Gate::Zihpm => ctx.has_zihpm_extension,
        Gate::Tee => ctx.has_tee_extension,
        Gate::Smode => ctx.has_s_extension,
        Gate::Hmode => ctx.has_h_extension,
        Gate::Sstc => ctx.is_sstc_enabled,
        Gate::Vector => ctx.has_v_extension,
        Gate::Crypto => ctx.has_crypto_extension,
        Gate::MaskBit(k) => profiles::bit_at(ctx.custom, k),
        Gate::Never => false,
    }
}

// What a register that has an address waits for, in the order of the table of specs/Gates. Every register is named: one that is
// left out is an error, and never an open gate.
#[tactic(auto, unfolding(crate::specs::Gates::spot_def))]
fn gate_of(register: Csr) -> Gate
    requires { (a : ℕ) × (idx_def register ≡ Ok a) }
    ensures { result ≡ gate_def (idx_def register) }
{
    match register {
        Csr::Mstatus | Csr::Misa | Csr::Mie | Csr::Mtvec | Csr::Mscratch | Csr::Mip => Gate::Always,
        Csr::Mhartid | Csr::Mvendorid | Csr::Marchid | Csr::Mimpid => Gate::Always,
        Csr::Pmpcfg(_) | Csr::Pmpaddr(_) => Gate::Always,
        Csr::Mcountinhibit | Csr::Mcounteren | Csr::Menvcfg | Csr::Mconfigptr => Gate::Always,
        Csr::Tselect | Csr::Mcause | Csr::Mepc | Csr::Mtval => Gate::Always,
        Csr::Mcycle | Csr::Minstret | Csr::Cycle | Csr::Time | Csr::Instret => Gate::Zicntr,
        Csr::Mhpmcounter(_) | Csr::Mhpmevent(_) => Gate::Zihpm,
        Csr::Mseccfg => Gate::Tee,
        Csr::Medeleg | Csr::Mideleg => Gate::Smode,
        Csr::Sstatus | Csr::Sie | Csr::Stvec | Csr::Scounteren | Csr::Senvcfg => Gate::Smode,
        Csr::Sscratch | Csr::Sepc | Csr::Scause | Csr::Stval | Csr::Sip => Gate::Smode,
        Csr::Satp | Csr::Scontext => Gate::Smode,
        Csr::Stimecmp => Gate::Sstc,
        Csr::Mtinst | Csr::Mtval2 => Gate::Hmode,
        Csr::Hstatus | Csr::Hedeleg | Csr::Hideleg | Csr::Hvip | Csr::Hip => Gate::Hmode,
        Csr::Hie | Csr::Hgeip | Csr::Hgeie | Csr::Henvcfg | Csr::Hcounteren => Gate::Hmode,
        Csr::Htimedelta | Csr::Htval | Csr::Htinst | Csr::Hgatp => Gate::Hmode,
        Csr::Vsstatus | Csr::Vsie | Csr::Vstvec | Csr::Vsscratch | Csr::Vsepc => Gate::Hmode,
        Csr::Vscause | Csr::Vstval | Csr::Vsip | Csr::Vsatp => Gate::Hmode,
        Csr::Vstart | Csr::Vxsat | Csr::Vxrm | Csr::Vcsr => Gate::Vector,
        Csr::Vl | Csr::Vtype | Csr::Vlenb => Gate::Vector,
        Csr::Seed => Gate::Crypto,
        Csr::Custom(addr) => Gate::MaskBit(addr - address::CUSTOM0),
        Csr::Tdata1 | Csr::Tdata2 | Csr::Tdata3 | Csr::Mcontext => Gate::Never,
        Csr::Dcsr | Csr::Dpc | Csr::Dscratch0 | Csr::Dscratch1 => Gate::Never,
    }
}

// The look-up by address, which may be any number. It takes no profile, so that flags are only read where a gate asks; and
// `gate_of` has no other caller, so that the compiler merges it into the arms.
#[tactic(auto, unfolding(crate::specs::Gates::spot_def))]
fn gated_at(csr: usize) -> Option<Row>
    ensures { result ≡ spot_def csr }
{
    let found = match csr {
        address::MSTATUS => Csr::Mstatus,
        address::MISA => Csr::Misa,
        address::MIE => Csr::Mie,
        address::MTVEC => Csr::Mtvec,
        address::MSCRATCH => Csr::Mscratch,
        address::MIP => Csr::Mip,
        address::MHARTID => Csr::Mhartid,
        address::MVENDORID => Csr::Mvendorid,
        address::MARCHID => Csr::Marchid,
        address::MIMPID => Csr::Mimpid,
        address::PMPCFG0..=address::PMPCFG15 => {
            let id = csr - address::PMPCFG0;
            if id % 2 == 0 {
                Csr::Pmpcfg(id)
            } else {
                return None; // Invalid on rv64
            }
        }
        address::PMPADDR0..=address::PMPADDR63 => Csr::Pmpaddr(csr - address::PMPADDR0),
        address::MCYCLE => Csr::Mcycle,
        address::MINSTRET => Csr::Minstret,
        address::CYCLE => Csr::Cycle,
        address::TIME => Csr::Time,
        address::INSTRET => Csr::Instret,
        // Mhpm counters start at 3 and end at 31: we shift them by 3 to start at 0 and end at 28
        address::MHPMCOUNTER3..=address::MHPMCOUNTER31 => Csr::Mhpmcounter(
            csr - address::MHPMCOUNTER3,
        ),
        address::MCOUNTINHIBIT => Csr::Mcountinhibit,
        address::MHPMEVENT3..=address::MHPMEVENT31 => Csr::Mhpmevent(csr - address::MHPMEVENT3),
        address::MCOUNTEREN => Csr::Mcounteren,
        address::MENVCFG => Csr::Menvcfg,
        address::MSECCFG => Csr::Mseccfg,
        address::MCONFIGPTR => Csr::Mconfigptr,
        address::MEDELEG => Csr::Medeleg,
        address::MIDELEG => Csr::Mideleg,
        address::MTINST => Csr::Mtinst,
        address::MTVAL2 => Csr::Mtval2,
        address::TSELECT => Csr::Tselect,
        // The Rust reads these eight addresses, and answers None under `if true`.
        address::TDATA1 => return None,
        address::TDATA2 => return None,
        address::TDATA3 => return None,
        address::MCONTEXT => return None,
        address::DCSR => return None,
        address::DPC => return None,
        address::DSCRATCH0 => return None,
        address::DSCRATCH1 => return None,
        // Custom CSRs: mask bit k makes address 0x7C0 + k available
        address::CUSTOM0..=address::CUSTOM63 => Csr::Custom(csr),
        address::MCAUSE => Csr::Mcause,
        address::MEPC => Csr::Mepc,
        address::MTVAL => Csr::Mtval,
        // Supervisor-level CSRs
        address::SSTATUS => Csr::Sstatus,
        address::SIE => Csr::Sie,
        address::STVEC => Csr::Stvec,
        address::SCOUNTEREN => Csr::Scounteren,
        address::SENVCFG => Csr::Senvcfg,
        address::SSCRATCH => Csr::Sscratch,
        address::SEPC => Csr::Sepc,
        address::SCAUSE => Csr::Scause,
        address::STVAL => Csr::Stval,
        address::SIP => Csr::Sip,
        address::STIMECMP => Csr::Stimecmp,
        address::SATP => Csr::Satp,
        address::SCONTEXT => Csr::Scontext,
        // Hypervisor and Virtual Supervisor CSRs
        address::HSTATUS => Csr::Hstatus,
        address::HEDELEG => Csr::Hedeleg,
        address::HIDELEG => Csr::Hideleg,
        address::HVIP => Csr::Hvip,
        address::HIP => Csr::Hip,
        address::HIE => Csr::Hie,
        address::HGEIP => Csr::Hgeip,
        address::HGEIE => Csr::Hgeie,
        address::HENVCFG => Csr::Henvcfg,
        address::HCOUNTEREN => Csr::Hcounteren,
        address::HTIMEDELTA => Csr::Htimedelta,
        address::HTVAL => Csr::Htval,
        address::HTINST => Csr::Htinst,
        address::HGATP => Csr::Hgatp,
        address::VSSTATUS => Csr::Vsstatus,
        address::VSIE => Csr::Vsie,
        address::VSTVEC => Csr::Vstvec,
        address::VSSCRATCH => Csr::Vsscratch,
        address::VSEPC => Csr::Vsepc,
        address::VSCAUSE => Csr::Vscause,
        address::VSTVAL => Csr::Vstval,
        address::VSIP => Csr::Vsip,
        address::VSATP => Csr::Vsatp,
        // Vector extension CSRs
        address::VSTART => Csr::Vstart,
        address::VXSAT => Csr::Vxsat,
        address::VXRM => Csr::Vxrm,
        address::VCSR => Csr::Vcsr,
        address::VL => Csr::Vl,
        address::VTYPE => Csr::Vtype,
        address::VLENB => Csr::Vlenb,
        // Crypto extension CSRs
        address::SEED => Csr::Seed,
        _ => return None,
    };
    Some(Row {
        gate: gate_of(found),
        csr: found,
    })
}

// The register at an address, which may be any number, if the profile makes it available, or why there is none.
#[tactic(auto, unfolding(crate::specs::Gates::decode_csr_def))]
pub fn decode_csr(ctx: Profile, csr: usize) -> Result<Csr, Absent>
    ensures { result ≡ decode_csr_def ctx csr }
{
    let row = gated_at(csr).ok_or(Absent::NoSuch)?;
    if allows(ctx, row.gate) {
        Ok(row.csr)
    } else {
        Err(Absent::GateOff)
    }
}

// How many CSRs the profile makes available: document 01's numbers by flags, and the ones of the mask.
pub fn count(ctx: Profile) -> u32
    ensures { result ≡ count_def ctx }
{
    90 + profiles::weight(ctx.has_zicntr, 5)
        + profiles::weight(ctx.has_zihpm_extension, 58)
        + profiles::weight(ctx.has_tee_extension, 1)
        + profiles::weight(ctx.has_s_extension, 14)
        + profiles::weight(ctx.is_sstc_enabled, 1)
        + profiles::weight(ctx.has_h_extension, 25)
        + profiles::weight(ctx.has_v_extension, 7)
        + profiles::weight(ctx.has_crypto_extension, 1)
        + ctx.custom.count_ones()
}

// Whether the profile makes the address, which may be any number, available. Not by `decode_csr`: a look-up with one
// caller is inlined there, and every flag is unpacked before the gate is known.
#[tactic(auto, using(crate::proofs::Laws::found_gated), unfolding(crate::specs::Gates::available, crate::specs::Gates::decode_csr_def))]
pub fn is_available(ctx: Profile, csr: usize) -> bool
    ensures { result ≡ available ctx csr }
{
    gated_at(csr).is_some_and(|row| allows(ctx, row.gate))
}
