// RISC-V instruction encoder: the way back from the crate `system_decoder`. A shape may hold any numbers; one that has no word is refused
// with document 01's numbers.
#![tactic(auto)]

ghost use Rattle.std.specs.Prelude.{◌≡◌, Bool, ◌*◌, ◌^◌};
ghost use Rattle.refusals.specs.Answer.{done};
ghost use Rattle.forms.specs.Meaning.{write_of};
ghost use Rattle.system_decoder.specs.Forms.{funct7, system};
ghost use Rattle.system_decoder.specs.System.{Low, funct3, meaning};
ghost use Rattle.system_encoder.specs.System.{checked_def, write_shape};

use profiles::Profile;
use refusals::Refusal;
use system_decoder::{CsrOp, Fence, Shape};

// The word of a shape that may hold any numbers, or refusal 6, 7 or 8.
#[tactic(auto, using(crate::proofs::System::not_refused))]
pub fn encode_shape(ctx: Profile, shape: Shape) -> Result<u64, Refusal>
    ensures { result ≡ write_shape (checked_def ctx shape) }
{
    check(ctx, shape)?;
    Ok(word_of(shape))
}

// Whether the profile lets a shape that may hold any numbers be written, or why not: what a word, a log record and a line of text have
// in common.
pub fn check(ctx: Profile, shape: Shape) -> Result<(), Refusal>
    ensures { result ≡ done (checked_def ctx shape) }
{
    match shape {
        Shape::Wfi | Shape::Mret | Shape::Sret => Ok(()),
        Shape::Fence { rs1, rs2, .. } => if registers::are_valid(rs1, rs2) {
            Ok(())
        } else {
            Err(Refusal::Register)
        },
        Shape::Access {
            op,
            csr,
            rd,
            src,
            ..
        } => check_access(ctx, op, csr, rd, src),
    }
}

// The same of a CSR form: 6, 7, 8 in document 01's order. Its parameters are the fields of `Shape::Access`, each tested by itself.
fn check_access(ctx: Profile, op: CsrOp, csr: usize, rd: usize, src: usize) -> Result<(), Refusal>
    ensures { (imm : Bool) → result ≡ done (checked_def ctx (Shape.Access op imm csr rd src)) }
{
    if !registers::are_valid(rd, src) {
        return Err(Refusal::Register);
    }
    // The readings ask `decode_csr`, for the reason. With `is_available` here the look-up under both has two callers, so the compiler
    // keeps it as one function, and the readings merge the rest (docs/SPEED.md).
    if !csrs::is_available(ctx, csr) {
        return Err(Refusal::Csr);
    }
    if system_decoder::is_barred(csr, op.always_writes(), src) {
        return Err(Refusal::ReadOnly);
    }
    Ok(())
}

// The word of a shape whose numbers fit.
fn word_of(shape: Shape) -> u64
    requires { Low shape }
    ensures { Ok result ≡ write_of system meaning shape }
{
    match shape {
        Shape::Wfi => 0b00010000010100000000000001110011,
        Shape::Mret => 0b00110000001000000000000001110011,
        Shape::Sret => 0b00010000001000000000000001110011,
        Shape::Fence { fence, rs1, rs2 } => {
            let word = fence_func7(fence)
                | (rs2 << 20)
                | (rs1 << 15)
                | system_decoder::ILLEGAL_OPCODE_MASK;
            word as u64
        }
        Shape::Access {
            op,
            imm,
            csr,
            rd,
            src,
        } => {
            let word = (csr << 20)
                | (src << 15)
                | csr_func3(op, imm)
                | (rd << 7)
                | system_decoder::ILLEGAL_OPCODE_MASK;
            word as u64
        }
    }
}

// func3 in its place: the two lower bits encode the CSR operation, the third bit selects the immediate variant.
fn csr_func3(op: CsrOp, imm: bool) -> usize
    ensures { result ≡ funct3 op imm * 2 ^ 12 }
{
    match (op, imm) {
        (CsrOp::Write, false) => system_decoder::CSRRW,
        (CsrOp::Set, false) => system_decoder::CSRRS,
        (CsrOp::Clear, false) => system_decoder::CSRRC,
        (CsrOp::Write, true) => system_decoder::CSRRWI,
        (CsrOp::Set, true) => system_decoder::CSRRSI,
        (CsrOp::Clear, true) => system_decoder::CSRRCI,
    }
}

// func7 in its place, which tells the fences apart.
fn fence_func7(fence: Fence) -> usize
    ensures { result ≡ funct7 fence * 2 ^ 25 }
{
    match fence {
        Fence::Vma => system_decoder::SFENCE_INSTR_VMA_MASK,
        Fence::Vvma => system_decoder::HFENCE_INSTR_VVMA_MASK,
        Fence::Gvma => system_decoder::HFENCE_INSTR_GVMA_MASK,
    }
}
