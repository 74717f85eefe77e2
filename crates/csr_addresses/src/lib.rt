// The CSRs with their addresses and masks, and no profile: the CSRs of Miralis's src/arch/registers.rs.
#![tactic(auto)]

ghost use Rattle.std.specs.Prelude.{◌≡◌, ◌+◌, ◌^◌, ◌<◌, leb};
ghost use Rattle.csr_addresses.specs.Address.{at_if, idx_def};
ghost use Rattle.csr_addresses.specs.Masks.{masks_of};

use refusals::Refusal;

// A RISC-V Control and Status Register (CSR).
#[derive(Clone, Copy)]
pub enum Csr {
    // Machine mode CSRs
    //
    // Machine Hart ID
    Mhartid,
    // Machine Status
    Mstatus,
    // Machine ISA extensions
    Misa,
    // Machine Interrupt Enable
    Mie,
    // Machine Trap Vector
    Mtvec,
    // Machine Scratch
    Mscratch,
    // Machine Interrupt Pending
    Mip,
    // Machine Vendor ID
    Mvendorid,
    // Machine Architecture ID
    Marchid,
    // Machine Implementation ID
    Mimpid,
    // PMP config
    Pmpcfg(usize),
    // PMP addr
    Pmpaddr(usize),
    // Machine cycle counter
    Mcycle,
    // Machine instructions-retired counter
    Minstret,
    // Cycle register
    Cycle,
    // Time register
    Time,
    // Instret register
    Instret,
    // Machine performance-monitoring counter
    Mhpmcounter(usize),
    // Machine counter-inhibit register
    Mcountinhibit,
    // Machine performance-monitoring event selector
    Mhpmevent(usize),
    // Machine counter enable
    Mcounteren,
    // Machine environment configuration register
    Menvcfg,
    // Machine security configuration register
    Mseccfg,
    // Ponter to configuration data structure
    Mconfigptr,
    // Machine exception delegation register
    Medeleg,
    // Machine interrupt delegation register
    Mideleg,
    // Machine trap instruction (transformed)
    Mtinst,
    // Machine bad guest physical address
    Mtval2,
    // Debug/Trace trigger register select
    Tselect,
    // First Debug/Trace trigger data register
    Tdata1,
    // Second Debug/Trace trigger data register
    Tdata2,
    // Third Debug/Trace trigger data register
    Tdata3,
    // Machine-mode context register
    Mcontext,
    // Debug control and status register
    Dcsr,
    // Debug PC
    Dpc,
    // Debug scratch register 0
    Dscratch0,
    // Debug scratch register 1
    Dscratch1,
    // Machine exception program counter
    Mepc,
    // Machine trap cause
    Mcause,
    // Machine bad address or instruction
    Mtval,

    // Supervisor mode CSRs
    //
    // Supervisor status register
    Sstatus,
    // Supervisor interrupt-enable register
    Sie,
    // Supervisor trap handler base address
    Stvec,
    // Supervisor counter enable
    Scounteren,
    // Supervisor environment configuration register
    Senvcfg,
    // Scratch register for supervisor trap handlers
    Sscratch,
    // Supervisor exception program counter
    Sepc,
    // Supervisor trap cause
    Scause,
    // Supervisor bad address or instruction
    Stval,
    // Supervisor interrupt pending
    Sip,
    // Supervisor address translation and protection
    Satp,
    // Supervisor-mode context register
    Scontext,
    // Supervisor timer compare
    Stimecmp,

    // Hypervisor and Virtual Supervisor CSRs
    //
    // Hypervisor Status Register
    Hstatus,
    // Hypervisor Exception Delegation Register
    Hedeleg,
    // Hypervisor Interrupt Delegation Register
    Hideleg,
    // Hypervisor Virtual Interrupt Pending Register
    Hvip,
    // Hypervisor Interrupt Pending Register
    Hip,
    // Hypervisor Interrupt Enable Register
    Hie,
    // Hypervisor Guest External Interrupt Pending Register
    Hgeip,
    // Hypervisor Guest External Interrupt Enable Register
    Hgeie,
    // Hypervisor Environment Configuration Register
    Henvcfg,
    // Hypervisor Counter-Enable Register
    Hcounteren,
    // Hypervisor Time Delta Register
    Htimedelta,
    // Hypervisor Trap Value Register
    Htval,
    // Hypervisor Trap Instruction Register
    Htinst,
    // Hypervisor Guest Address Translation and Protection Register
    Hgatp,

    // Virtual Supervisor Status Register
    Vsstatus,
    // Virtual Supervisor Interrupt Enable
    Vsie,
    // Virtual Supervisor Trap-Vector Base Address
    Vstvec,
    // Virtual Supervisor Scratch Register
    Vsscratch,
    // Virtual Supervisor Exception Program Counter
    Vsepc,
    // Virtual Supervisor Cause Register
    Vscause,
    // Virtual Supervisor Trap Value Register
    Vstval,
    // Virtual Supervisor Interrupt Pending Register
    Vsip,
    // Virtual Supervisor Address Translation and Protection
    Vsatp,

    // Vector extension
    //
    // Vector Start Index CSR
    Vstart,
    // Vector Fixed-Point Saturation Flag
    Vxsat,
    // Vector Fixed-Point Rounding Mode Register
    Vxrm,
    // Vector Control and Status Register
    Vcsr,
    // Vector Length Register
    Vl,
    // Vector Type Register
    Vtype,
    // Vector Byte Length
    Vlenb,

    // Crypto extension
    //
    // Seed register
    Seed,

    // Custom
    //
    // Those CSRs are specific to each SoC, refer to the corresponding manual for details.
    // The `usize` fields encode the CSR ID.
    Custom(usize),
}

// Module with the CSR registers indexes. (Not named `csr` as in the Rust: names that differ from `Csr` only in case are refused.)
pub mod address {
    // Machine mode CSRs
    pub const MSTATUS: usize = 0x300;

    pub const MISA: usize = 0x301;

    pub const MEDELEG: usize = 0x302;

    pub const MIDELEG: usize = 0x303;

    pub const MIE: usize = 0x304;

    pub const MTVEC: usize = 0x305;

    pub const MCOUNTEREN: usize = 0x306;

    pub const MENVCFG: usize = 0x30A;

    pub const MCOUNTINHIBIT: usize = 0x320;

    pub const MHPMEVENT3: usize = 0x323;

    pub const MHPMEVENT31: usize = 0x33F;

    pub const MSCRATCH: usize = 0x340;

    pub const MEPC: usize = 0x341;

    pub const MCAUSE: usize = 0x342;

    pub const MTVAL: usize = 0x343;

    pub const MIP: usize = 0x344;

    pub const MTINST: usize = 0x34A;

    pub const MTVAL2: usize = 0x34B;

    pub const PMPCFG0: usize = 0x3A0;

    pub const PMPCFG15: usize = 0x3AF;

    pub const PMPADDR0: usize = 0x3B0;

    pub const PMPADDR63: usize = 0x3EF;

    pub const MSECCFG: usize = 0x747;

    pub const TSELECT: usize = 0x7A0;

    pub const TDATA1: usize = 0x7A1;

    pub const TDATA2: usize = 0x7A2;

    pub const TDATA3: usize = 0x7A3;

    pub const MCONTEXT: usize = 0x7A8;

    pub const DCSR: usize = 0x7B0;

    pub const DPC: usize = 0x7B1;

    pub const DSCRATCH0: usize = 0x7B2;

    pub const DSCRATCH1: usize = 0x7B3;

    pub const MCYCLE: usize = 0xB00;

    pub const MINSTRET: usize = 0xB02;

    pub const MHPMCOUNTER3: usize = 0xB03;

    pub const MHPMCOUNTER31: usize = 0xB1F;

    pub const CYCLE: usize = 0xC00;

    pub const TIME: usize = 0xC01;

    pub const INSTRET: usize = 0xC02;

    pub const VL: usize = 0xC20;

    pub const VTYPE: usize = 0xC21;

    pub const VLENB: usize = 0xC22;

    pub const MVENDORID: usize = 0xF11;

    pub const MARCHID: usize = 0xF12;

    pub const MIMPID: usize = 0xF13;

    pub const MHARTID: usize = 0xF14;

    pub const MCONFIGPTR: usize = 0xF15;

    // Supervisor mode CSRs
    pub const SSTATUS: usize = 0x100;

    pub const SIE: usize = 0x104;

    pub const STVEC: usize = 0x105;

    pub const SCOUNTEREN: usize = 0x106;

    pub const SENVCFG: usize = 0x10A;

    pub const SSCRATCH: usize = 0x140;

    pub const SEPC: usize = 0x141;

    pub const SCAUSE: usize = 0x142;

    pub const STVAL: usize = 0x143;

    pub const SIP: usize = 0x144;

    pub const STIMECMP: usize = 0x14D;

    pub const SATP: usize = 0x180;

    pub const SCONTEXT: usize = 0x5A8;

    // Hypervisor and Virtual Supervisor CSRs
    pub const VSSTATUS: usize = 0x200;

    pub const VSIE: usize = 0x204;

    pub const VSTVEC: usize = 0x205;

    pub const VSSCRATCH: usize = 0x240;

    pub const VSEPC: usize = 0x241;

    pub const VSCAUSE: usize = 0x242;

    pub const VSTVAL: usize = 0x243;

    pub const VSIP: usize = 0x244;

    pub const VSATP: usize = 0x280;

    pub const HSTATUS: usize = 0x600;

    pub const HEDELEG: usize = 0x602;

    pub const HIDELEG: usize = 0x603;

    pub const HIE: usize = 0x604;

    pub const HTIMEDELTA: usize = 0x605;

    pub const HCOUNTEREN: usize = 0x606;

    pub const HGEIE: usize = 0x607;

    pub const HGEIP: usize = 0xE12;

    pub const HENVCFG: usize = 0x60A;

    pub const HTVAL: usize = 0x643;

    pub const HIP: usize = 0x644;

    pub const HVIP: usize = 0x645;

    pub const HTINST: usize = 0x64A;

    pub const HGATP: usize = 0x680;

    // Vector extension CSRs
    pub const VSTART: usize = 0x8;

    pub const VXSAT: usize = 0x9;

    pub const VXRM: usize = 0xA;

    pub const VCSR: usize = 0xF;

    // Crypto extension CSRs
    pub const SEED: usize = 0x15;

    // The Rust writes these two as numbers.
    pub const CUSTOM0: usize = 0x7C0;

    pub const CUSTOM63: usize = 0x7FF;
}

// The four masks of `Csr`, for their proved values.
#[derive(Clone, Copy)]
pub struct Masks {
    pub pmp_cfg_lock: usize,
    pub pmp_cfg_legal: usize,
    pub pmp_addr_legal: usize,
    pub mcountinhibit_legal: usize,
}

impl Csr {
    pub const PMP_CFG_LOCK_MASK: usize = (0b1 << 7)
        | ((0b1 << 7) << 8)
        | ((0b1 << 7) << 16)
        | ((0b1 << 7) << 24)
        | ((0b1 << 7) << 32)
        | ((0b1 << 7) << 40)
        | ((0b1 << 7) << 48)
        | ((0b1 << 7) << 56);

    pub const PMP_CFG_LEGAL_MASK: usize = !((0b11 << 5)
        | ((0b11 << 5) << 8)
        | ((0b11 << 5) << 16)
        | ((0b11 << 5) << 24)
        | ((0b11 << 5) << 32)
        | ((0b11 << 5) << 40)
        | ((0b11 << 5) << 48)
        | ((0b11 << 5) << 56));

    pub const PMP_ADDR_LEGAL_MASK: usize = !(0b1111111111 << 54);

    pub const MCOUNTINHIBIT_LEGAL_MASK: usize = !(0b10);

    // The masks as values, which `masks_of` states.
    pub fn masks() -> Masks
        ensures { result ≡ masks_of }
    {
        Masks {
            pmp_cfg_lock: Csr::PMP_CFG_LOCK_MASK,
            pmp_cfg_legal: Csr::PMP_CFG_LEGAL_MASK,
            pmp_addr_legal: Csr::PMP_ADDR_LEGAL_MASK,
            mcountinhibit_legal: Csr::MCOUNTINHIBIT_LEGAL_MASK,
        }
    }

    // Return the index of the CSR (i.e. its address in the CSR address space), or refusal 7 for a payload that `decode_csr`
    // gives under no profile. The Rust answers another register's address there, or one that no register has, or overflows.
    pub fn idx(self) -> Result<usize, Refusal>
        ensures { result ≡ idx_def self }
    {
        match self {
            // Machine mode CSRs
            Csr::Mhartid => Ok(address::MHARTID),
            Csr::Mstatus => Ok(address::MSTATUS),
            Csr::Misa => Ok(address::MISA),
            Csr::Mie => Ok(address::MIE),
            Csr::Mtvec => Ok(address::MTVEC),
            Csr::Mscratch => Ok(address::MSCRATCH),
            Csr::Mip => Ok(address::MIP),
            Csr::Mvendorid => Ok(address::MVENDORID),
            Csr::Marchid => Ok(address::MARCHID),
            Csr::Mimpid => Ok(address::MIMPID),
            Csr::Pmpcfg(id) => if id % 2 == 0 {
                numbered(id, 14, address::PMPCFG0)
            } else {
                Err(Refusal::Csr) // Invalid on rv64
            },
            Csr::Pmpaddr(id) => numbered(id, 63, address::PMPADDR0),
            Csr::Mcycle => Ok(address::MCYCLE),
            Csr::Minstret => Ok(address::MINSTRET),
            Csr::Cycle => Ok(address::CYCLE),
            Csr::Time => Ok(address::TIME),
            Csr::Instret => Ok(address::INSTRET),
            Csr::Mhpmcounter(id) => numbered(id, 28, address::MHPMCOUNTER3),
            Csr::Mcountinhibit => Ok(address::MCOUNTINHIBIT),
            Csr::Mhpmevent(id) => numbered(id, 28, address::MHPMEVENT3),
            Csr::Mcounteren => Ok(address::MCOUNTEREN),
            Csr::Menvcfg => Ok(address::MENVCFG),
            Csr::Mseccfg => Ok(address::MSECCFG),
            Csr::Mconfigptr => Ok(address::MCONFIGPTR),
            Csr::Medeleg => Ok(address::MEDELEG),
            Csr::Mideleg => Ok(address::MIDELEG),
            Csr::Mtinst => Ok(address::MTINST),
            Csr::Mtval2 => Ok(address::MTVAL2),
            Csr::Tselect => Ok(address::TSELECT),
            Csr::Tdata1 => Ok(address::TDATA1),
            Csr::Tdata2 => Ok(address::TDATA2),
            Csr::Tdata3 => Ok(address::TDATA3),
            Csr::Mcontext => Ok(address::MCONTEXT),
            Csr::Dcsr => Ok(address::DCSR),
            Csr::Dpc => Ok(address::DPC),
            Csr::Dscratch0 => Ok(address::DSCRATCH0),
            Csr::Dscratch1 => Ok(address::DSCRATCH1),
            Csr::Mepc => Ok(address::MEPC),
            Csr::Mcause => Ok(address::MCAUSE),
            Csr::Mtval => Ok(address::MTVAL),

            // Supervisor mode CSRs
            Csr::Sstatus => Ok(address::SSTATUS),
            Csr::Sie => Ok(address::SIE),
            Csr::Stvec => Ok(address::STVEC),
            Csr::Scounteren => Ok(address::SCOUNTEREN),
            Csr::Senvcfg => Ok(address::SENVCFG),
            Csr::Sscratch => Ok(address::SSCRATCH),
            Csr::Sepc => Ok(address::SEPC),
            Csr::Scause => Ok(address::SCAUSE),
            Csr::Stval => Ok(address::STVAL),
            Csr::Sip => Ok(address::SIP),
            Csr::Satp => Ok(address::SATP),
            Csr::Scontext => Ok(address::SCONTEXT),
            Csr::Stimecmp => Ok(address::STIMECMP),

            // Hypervisor and Virtual Supervisor CSRs
            Csr::Hstatus => Ok(address::HSTATUS),
            Csr::Hedeleg => Ok(address::HEDELEG),
            Csr::Hideleg => Ok(address::HIDELEG),
            Csr::Hvip => Ok(address::HVIP),
            Csr::Hip => Ok(address::HIP),
            Csr::Hie => Ok(address::HIE),
            Csr::Hgeip => Ok(address::HGEIP),
            Csr::Hgeie => Ok(address::HGEIE),
            Csr::Henvcfg => Ok(address::HENVCFG),
            Csr::Hcounteren => Ok(address::HCOUNTEREN),
            Csr::Htimedelta => Ok(address::HTIMEDELTA),
            Csr::Htval => Ok(address::HTVAL),
            Csr::Htinst => Ok(address::HTINST),
            Csr::Hgatp => Ok(address::HGATP),
            Csr::Vsstatus => Ok(address::VSSTATUS),
            Csr::Vsie => Ok(address::VSIE),
            Csr::Vstvec => Ok(address::VSTVEC),
            Csr::Vsscratch => Ok(address::VSSCRATCH),
            Csr::Vsepc => Ok(address::VSEPC),
            Csr::Vscause => Ok(address::VSCAUSE),
            Csr::Vstval => Ok(address::VSTVAL),
            Csr::Vsip => Ok(address::VSIP),
            Csr::Vsatp => Ok(address::VSATP),

            // Vector extension CSRs
            Csr::Vstart => Ok(address::VSTART),
            Csr::Vxsat => Ok(address::VXSAT),
            Csr::Vxrm => Ok(address::VXRM),
            Csr::Vcsr => Ok(address::VCSR),
            Csr::Vl => Ok(address::VL),
            Csr::Vtype => Ok(address::VTYPE),
            Csr::Vlenb => Ok(address::VLENB),

            // Crypto extension CSRs
            Csr::Seed => Ok(address::SEED),

            // Custom CSRs
            Csr::Custom(addr) => match addr {
                address::CUSTOM0..=address::CUSTOM63 => Ok(addr),
                _ => Err(Refusal::Csr),
            },
        }
    }
}

// The address of a register whose payload counts from `first` up, to `last` at most.
fn numbered(id: usize, last: usize, first: usize) -> Result<usize, Refusal>
    requires { first + last < 2 ^ 12 }
    ensures { result ≡ at_if (leb id last) (first + id) }
{
    if id <= last {
        Ok(first + id)
    } else {
        Err(Refusal::Csr)
    }
}
