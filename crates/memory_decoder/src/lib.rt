// Loads and stores, the compressed ones among them, and how a word is read as one: `decode_load` and `decode_store` of Miralis's
// src/decoder.rs, with the stack-based forms that are `todo!` there. Loads and stores have types and functions of their own,
// with Miralis's names and in its order.
#![tactic(auto)]

ghost use Rattle.std.specs.Prelude.{◌≡◌, ◌+◌, ◌%◌, ◌^◌, ◌<◌};
ghost use Rattle.utils.specs.Field.{fld};
ghost use Rattle.utils.specs.Signed.{signed};
ghost use Rattle.forms.specs.Layout.{read, imm};
ghost use Rattle.memory_decoder.specs.Forms.{store, c_lw, c_ld, c_lwsp, c_ldsp, c_swsp, c_sdsp};
ghost use Rattle.memory_decoder.specs.Funct3.{width_of};
ghost use Rattle.memory_decoder.specs.Load.{load_def, uncompressed_load_def, compressed_load_def};
ghost use Rattle.memory_decoder.specs.Store.{store_def, uncompressed_store_def, compressed_store_def};

use profiles::Profile;
use refusals::Refusal;
use registers::Register;
use utils::Width;

// Compressed Load Word opcode
const C_LW: usize = 0b010;

// Compressed Load Double word opcode
const C_LD: usize = 0b011;

// Compressed Load Word opcode, stack-based
const C_LWSP: usize = 0b010;

// Compressed Load Double word opcode, stack-based
const C_LDSP: usize = 0b011;

// Compressed Store Word opcode
const C_SW: usize = 0b110;

// Compressed Store Double word opcode
const C_SD: usize = 0b111;

// Compressed Store Word opcode, stack-based
const C_SWSP: usize = 0b110;

// Compressed Store Double word opcode, stack-based
const C_SDSP: usize = 0b111;

// The stack pointer, which is the base of the stack-based forms
const SP: Register = Register(2);

// A load instruction.
#[derive(Clone, Copy)]
pub struct LoadInstr {
    pub rd: Register,
    pub rs1: Register,
    pub imm: isize,
    pub len: Width,
    pub is_compressed: bool,
    pub is_unsigned: bool,
}

// A store instruction.
#[derive(Clone, Copy)]
pub struct StoreInstr {
    pub rs2: Register,
    pub rs1: Register,
    pub imm: isize,
    pub len: Width,
    pub is_compressed: bool,
}

// Decodes a raw read RISC-V instruction.
#[tactic(auto, unfolding(crate::specs::Load::load_def))]
pub fn decode_load(ctx: Profile, raw: usize) -> Result<LoadInstr, Refusal>
    ensures { result ≡ load_def ctx raw }
{
    match extract_last_two_bits(raw) {
        0b11 => decode_uncompressed_load(ctx, raw),
        _ => decode_compressed_load(ctx, raw),
    }
}

// Decodes a raw write RISC-V instruction.
#[tactic(auto, unfolding(crate::specs::Store::store_def))]
pub fn decode_store(ctx: Profile, raw: usize) -> Result<StoreInstr, Refusal>
    ensures { result ≡ store_def ctx raw }
{
    match extract_last_two_bits(raw) {
        0b11 => decode_uncompressed_store(ctx, raw),
        _ => decode_compressed_store(ctx, raw),
    }
}

// Decodes a compressed load. A word of 32 bits is not of the form.
#[tactic(auto, unfolding(crate::specs::Load::load_def))]
pub fn decode_compressed_load(ctx: Profile, raw: usize) -> Result<LoadInstr, Refusal>
    ensures { result ≡ compressed_load_def ctx raw }
{
    match extract_last_two_bits(raw) {
        // Register-based load and store instructions for C set start with 0b00
        0b00 => decode_register_based_compressed_load(ctx, raw),
        // Stack-based load and store instructions for C set start with 0b10
        0b10 => decode_stack_based_compressed_load(ctx, raw),
        _ => Err(Refusal::NotTheForm),
    }
}

#[tactic(auto, unfolding(crate::specs::Load::load_def))]
fn decode_register_based_compressed_load(ctx: Profile, raw: usize) -> Result<LoadInstr, Refusal>
    requires { raw % 2 ^ 2 ≡ 0b00 }
    ensures { result ≡ compressed_load_def ctx raw }
{
    let func3 = (raw >> 13) & 0b111;
    let rd = compressed_register_at(raw, 2);
    let rs1 = compressed_register_at(raw, 7);

    match func3 {
        C_LW => Ok(LoadInstr {
            rd,
            rs1,
            imm: compressed_word_imm(raw),
            len: Width::Byte4,
            is_compressed: true,
            is_unsigned: false,
        }),
        C_LD => Ok(LoadInstr {
            rd,
            rs1,
            imm: compressed_double_imm(raw),
            len: Width::Byte8,
            is_compressed: true,
            is_unsigned: false,
        }),
        _ => Err(Refusal::NotTheForm),
    }
}

#[tactic(auto, unfolding(crate::specs::Load::load_def))]
fn decode_stack_based_compressed_load(ctx: Profile, raw: usize) -> Result<LoadInstr, Refusal>
    requires { raw % 2 ^ 2 ≡ 0b10 }
    ensures { result ≡ compressed_load_def ctx raw }
{
    let func3 = (raw >> 13) & 0b111;
    let rd = registers::register_at(raw, 7);
    // rd 0 is reserved
    if rd.0 == 0 {
        return Err(Refusal::StackForm);
    }

    match func3 {
        C_LWSP => Ok(LoadInstr {
            rd,
            rs1: SP,
            imm: stack_load_word_imm(raw),
            len: Width::Byte4,
            is_compressed: true,
            is_unsigned: false,
        }),
        C_LDSP => Ok(LoadInstr {
            rd,
            rs1: SP,
            imm: stack_load_double_imm(raw),
            len: Width::Byte8,
            is_compressed: true,
            is_unsigned: false,
        }),
        _ => Err(Refusal::StackForm),
    }
}

// Decodes a compressed store. A word of 32 bits is not of the form.
#[tactic(auto, unfolding(crate::specs::Store::store_def))]
pub fn decode_compressed_store(ctx: Profile, raw: usize) -> Result<StoreInstr, Refusal>
    ensures { result ≡ compressed_store_def ctx raw }
{
    match extract_last_two_bits(raw) {
        // Register-based load and store instructions for C set start with 0b00
        0b00 => decode_register_based_compressed_store(ctx, raw),
        // Stack-based load and store instructions for C set start with 0b10
        0b10 => decode_stack_based_compressed_store(ctx, raw),
        _ => Err(Refusal::NotTheForm),
    }
}

#[tactic(auto, unfolding(crate::specs::Store::store_def))]
fn decode_register_based_compressed_store(ctx: Profile, raw: usize) -> Result<StoreInstr, Refusal>
    requires { raw % 2 ^ 2 ≡ 0b00 }
    ensures { result ≡ compressed_store_def ctx raw }
{
    let func3 = (raw >> 13) & 0b111;
    let rs2 = compressed_register_at(raw, 2);
    let rs1 = compressed_register_at(raw, 7);

    match func3 {
        C_SW => Ok(StoreInstr {
            rs2,
            rs1,
            imm: compressed_word_imm(raw),
            len: Width::Byte4,
            is_compressed: true,
        }),
        C_SD => Ok(StoreInstr {
            rs2,
            rs1,
            imm: compressed_double_imm(raw),
            len: Width::Byte8,
            is_compressed: true,
        }),
        _ => Err(Refusal::NotTheForm),
    }
}

#[tactic(auto, unfolding(crate::specs::Store::store_def))]
fn decode_stack_based_compressed_store(ctx: Profile, raw: usize) -> Result<StoreInstr, Refusal>
    requires { raw % 2 ^ 2 ≡ 0b10 }
    ensures { result ≡ compressed_store_def ctx raw }
{
    let func3 = (raw >> 13) & 0b111;
    let rs2 = registers::register_at(raw, 2);

    match func3 {
        C_SWSP => Ok(StoreInstr {
            rs2,
            rs1: SP,
            imm: stack_store_word_imm(raw),
            len: Width::Byte4,
            is_compressed: true,
        }),
        C_SDSP => Ok(StoreInstr {
            rs2,
            rs1: SP,
            imm: stack_store_double_imm(raw),
            len: Width::Byte8,
            is_compressed: true,
        }),
        _ => Err(Refusal::StackForm),
    }
}

// Decodes a load of 32 bits. A compressed word is not of the form.
#[tactic(auto, unfolding(crate::specs::Load::load_def))]
pub fn decode_uncompressed_load(ctx: Profile, raw: usize) -> Result<LoadInstr, Refusal>
    ensures { result ≡ uncompressed_load_def ctx raw }
{
    if raw & 0b1111111 != 0x03 {
        return Err(Refusal::NotTheForm);
    }
    let func3 = (raw >> 12) & 0b111;
    if func3 == 0b111 {
        return Err(Refusal::Width);
    }
    let rd = registers::register_at(raw, 7);
    let rs1 = registers::register_at(raw, 15);
    let imm = utils::bits_to_int(raw, 20);

    Ok(LoadInstr {
        rd,
        rs1,
        imm,
        len: width_of(func3),
        is_compressed: false,
        is_unsigned: 0b100 <= func3,
    })
}

// Decodes a store of 32 bits. A compressed word is not of the form.
#[tactic(auto, unfolding(crate::specs::Store::store_def))]
pub fn decode_uncompressed_store(ctx: Profile, raw: usize) -> Result<StoreInstr, Refusal>
    ensures { result ≡ uncompressed_store_def ctx raw }
{
    if raw & 0b1111111 != 0x23 {
        return Err(Refusal::NotTheForm);
    }
    let func3 = (raw >> 12) & 0b111;
    if 0b011 < func3 {
        return Err(Refusal::Width);
    }
    let rs1 = registers::register_at(raw, 15);
    let rs2 = registers::register_at(raw, 20);

    Ok(StoreInstr {
        rs2,
        rs1,
        imm: store_imm(raw),
        len: width_of(func3),
        is_compressed: false,
    })
}

// The register of x8 to x15 that the three bits from bit `k` up choose.
fn compressed_register_at(raw: usize, k: usize) -> Register
    requires { k < 64 }
    ensures { result ≡ record { 0 = 8 + fld raw k 3 } }
{
    Register::from(((raw >> k) & 0b111) + 8)
}

// The immediates, each shifted and masked as the manual draws its form: a table of pieces would be walked for every word.

// The immediate of a store of 32 bits.
fn store_imm(raw: usize) -> isize
    ensures { result ≡ signed 2048 (read store raw imm) }
{
    let imm_4_0 = (raw >> 7) & 0b11111;
    let imm_11_5 = ((raw >> 25) & 0b1111111) << 5;
    utils::bits_to_int(imm_11_5 | imm_4_0, 0)
}

// The immediate of C.LW, which is C.SW's too.
fn compressed_word_imm(raw: usize) -> isize
    ensures { result ≡ signed 2048 (read c_lw raw imm) }
{
    let imm_2 = ((raw >> 6) & 0b1) << 2;
    let imm_5_3 = ((raw >> 10) & 0b111) << 3;
    let imm_6 = ((raw >> 5) & 0b1) << 6;
    (imm_6 | imm_5_3 | imm_2) as isize
}

// The immediate of C.LD, which is C.SD's too.
fn compressed_double_imm(raw: usize) -> isize
    ensures { result ≡ signed 2048 (read c_ld raw imm) }
{
    let imm_5_3 = ((raw >> 10) & 0b111) << 3;
    let imm_7_6 = ((raw >> 5) & 0b11) << 6;
    (imm_7_6 | imm_5_3) as isize
}

// The immediate of C.LWSP.
fn stack_load_word_imm(raw: usize) -> isize
    ensures { result ≡ signed 2048 (read c_lwsp raw imm) }
{
    let imm_4_2 = ((raw >> 4) & 0b111) << 2;
    let imm_5 = ((raw >> 12) & 0b1) << 5;
    let imm_7_6 = ((raw >> 2) & 0b11) << 6;
    (imm_7_6 | imm_5 | imm_4_2) as isize
}

// The immediate of C.LDSP.
fn stack_load_double_imm(raw: usize) -> isize
    ensures { result ≡ signed 2048 (read c_ldsp raw imm) }
{
    let imm_4_3 = ((raw >> 5) & 0b11) << 3;
    let imm_5 = ((raw >> 12) & 0b1) << 5;
    let imm_8_6 = ((raw >> 2) & 0b111) << 6;
    (imm_8_6 | imm_5 | imm_4_3) as isize
}

// The immediate of C.SWSP.
fn stack_store_word_imm(raw: usize) -> isize
    ensures { result ≡ signed 2048 (read c_swsp raw imm) }
{
    let imm_5_2 = ((raw >> 9) & 0b1111) << 2;
    let imm_7_6 = ((raw >> 7) & 0b11) << 6;
    (imm_7_6 | imm_5_2) as isize
}

// The immediate of C.SDSP.
fn stack_store_double_imm(raw: usize) -> isize
    ensures { result ≡ signed 2048 (read c_sdsp raw imm) }
{
    let imm_5_3 = ((raw >> 10) & 0b111) << 3;
    let imm_8_6 = ((raw >> 7) & 0b111) << 6;
    (imm_8_6 | imm_5_3) as isize
}

// The width that funct3 gives, in loads and in stores.
fn width_of(func3: usize) -> Width
    ensures { result ≡ width_of func3 }
{
    match func3 & 0b11 {
        0b00 => Width::Byte,
        0b01 => Width::Byte2,
        0b10 => Width::Byte4,
        _ => Width::Byte8,
    }
}

// Returns the last two bits of an instruction, which tell its length, and a compressed one's quadrant.
fn extract_last_two_bits(raw: usize) -> usize
    ensures { result ≡ raw % 2 ^ 2 }
{
    raw & 0b11
}
