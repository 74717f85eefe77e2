// Loads and stores as words: the way back from the load and store readings of the crate `memory_decoder`. An instruction may hold any
// numbers; one that has no word is refused. Loads and stores have functions of their own, as in `memory_decoder`: their fields differ, and
// a word is put together as the manual draws its form.
#![tactic(auto)]

ghost use Rattle.std.specs.Prelude.{true, false, ◌≡◌, ◌<◌, ◌≤◌};
ghost use Rattle.utils.specs.Signed.{code_def};
ghost use Rattle.forms.specs.Layout.{build, rd as the_rd};
ghost use Rattle.forms.specs.Meaning.{write_of};
ghost use Rattle.memory_decoder.specs.Forms.{load, store, c_word, c_double, loads, stores, c_lwsp, c_ldsp, c_swsp, c_sdsp};
ghost use Rattle.memory_decoder.specs.Funct3.{size_of, funct3_of};
ghost use Rattle.memory_decoder.specs.Load as Load;
ghost use Rattle.memory_decoder.specs.Store as Store;
ghost use Rattle.memory_encoder.specs.LoadStore.{encode_load_def, encode_store_def, Compressed, operands, coded, stepped};

use memory_decoder::{LoadInstr, StoreInstr};
use profiles::Profile;
use refusals::Refusal;
use utils::Width;

// A load as a word. Its registers are tested first, then that it has a form, then its immediate.
#[tactic(auto, unfolding(crate::specs::LoadStore::encode_load_def))]
pub fn encode_load(ctx: Profile, load: LoadInstr) -> Result<u64, Refusal>
    ensures { result ≡ encode_load_def ctx load }
{
    let rd = load.rd.0;
    let rs1 = load.rs1.0;
    let imm = load.imm;
    let len = load.len;
    if !registers::are_valid(rd, rs1) {
        return Err(Refusal::Register);
    }
    if load.is_compressed {
        if load.is_unsigned {
            return Err(Refusal::NoForm);
        }
        if rs1 == SP {
            return encode_stack_load(rd, imm, len);
        }
        return encode_compressed(0b010, rd, rs1, imm, len);
    }
    let func3 = load_func3(len, load.is_unsigned);
    // There is no unsigned load of 64 bits
    if func3 == 0b111 {
        return Err(Refusal::NoForm);
    }
    let code = immediate(imm)?;
    Ok(load_word(rd, rs1, func3, code))
}

// A store as a word, tested in the same order.
#[tactic(auto, unfolding(crate::specs::LoadStore::encode_store_def))]
pub fn encode_store(ctx: Profile, store: StoreInstr) -> Result<u64, Refusal>
    ensures { result ≡ encode_store_def ctx store }
{
    let rs2 = store.rs2.0;
    let rs1 = store.rs1.0;
    let imm = store.imm;
    let len = store.len;
    if !registers::are_valid(rs2, rs1) {
        return Err(Refusal::Register);
    }
    if store.is_compressed {
        if rs1 == SP {
            return encode_stack_store(rs2, imm, len);
        }
        return encode_compressed(0b110, rs2, rs1, imm, len);
    }
    let code = immediate(imm)?;
    Ok(store_word(rs2, rs1, size_of(len), code))
}

// Half of the codes of a 12-bit immediate: it is -2048 to 2047.
const HALF: u32 = 2048;

// The stack pointer: a compressed load or store with this base is always stack-based.
const SP: usize = 2;

// A register-based compressed load or store of the register `reg`: `func3` is that of the 32-bit form, and the 64-bit form has the
// next. Both registers are x8 to x15.
fn encode_compressed(
    func3: usize,
    reg: usize,
    base: usize,
    imm: isize,
    len: Width,
) -> Result<u64, Refusal>
    requires { (func3 < 7) × ((reg ≤ 31) × ((base ≤ 31) × (base ≡ 2 → ⊥))) }
    ensures { Compressed func3 reg base imm len result }
{
    if reg / 8 != 1 || base / 8 != 1 {
        return Err(Refusal::NoForm);
    }
    match len {
        Width::Byte4 => Ok(compressed_word(func3, reg, base, offset(imm, 4, 128)?)),
        Width::Byte8 => Ok(compressed_double(func3 + 1, reg, base, offset(imm, 8, 256)?)),
        _ => Err(Refusal::NoForm),
    }
}

// A stack-based compressed load. There is none of x0. Its two words and the store's two are four forms, so the match of the two
// functions would only grow in one.
fn encode_stack_load(rd: usize, imm: isize, len: Width) -> Result<u64, Refusal>
    requires { rd ≤ 31 }
    ensures { result ≡ write_of loads Load.meaning (Load.mk rd 2 imm len true false) }
{
    if rd == 0 {
        return Err(Refusal::NoForm);
    }
    match len {
        Width::Byte4 => Ok(stack_load_word(rd, offset(imm, 4, 256)?)),
        Width::Byte8 => Ok(stack_load_double(rd, offset(imm, 8, 512)?)),
        _ => Err(Refusal::NoForm),
    }
}

// A stack-based compressed store.
fn encode_stack_store(rs2: usize, imm: isize, len: Width) -> Result<u64, Refusal>
    requires { rs2 ≤ 31 }
    ensures { result ≡ write_of stores Store.meaning (Store.mk rs2 2 imm len true) }
{
    match len {
        Width::Byte4 => Ok(stack_store_word(rs2, offset(imm, 4, 256)?)),
        Width::Byte8 => Ok(stack_store_double(rs2, offset(imm, 8, 512)?)),
        _ => Err(Refusal::NoForm),
    }
}

// The code of an immediate of twelve bits.
fn immediate(imm: isize) -> Result<usize, Refusal>
    ensures { result ≡ coded (code_def 2048 imm) }
{
    utils::code_of(imm, HALF).ok_or(Refusal::Immediate)
}

// The code of an immediate that is a multiple of `step` below `limit`.
fn offset(imm: isize, step: usize, limit: usize) -> Result<usize, Refusal>
    requires { 0 < step }
    ensures { result ≡ coded (stepped step limit (code_def 2048 imm)) }
{
    let code = immediate(imm)?;
    if code % step == 0 && code < limit {
        Ok(code)
    } else {
        Err(Refusal::Immediate)
    }
}

// The words, each put together as the manual draws its form.

// C.LW and C.SW, by `func3`.
fn compressed_word(func3: usize, reg: usize, base: usize, imm: usize) -> u64
    requires { func3 < 8 }
    ensures { result ≡ build (c_word func3 the_rd) (operands reg base func3 imm) }
{
    let imm_2 = (imm >> 2) & 0b1;
    let imm_5_3 = (imm >> 3) & 0b111;
    let imm_6 = (imm >> 6) & 0b1;
    ((func3 << 13)
        | (imm_5_3 << 10)
        | ((base & 0b111) << 7)
        | (imm_2 << 6)
        | (imm_6 << 5)
        | ((reg & 0b111) << 2)) as u64
}

// C.LD and C.SD, by `func3`.
fn compressed_double(func3: usize, reg: usize, base: usize, imm: usize) -> u64
    requires { func3 < 8 }
    ensures { result ≡ build (c_double func3 the_rd) (operands reg base func3 imm) }
{
    let imm_5_3 = (imm >> 3) & 0b111;
    let imm_7_6 = (imm >> 6) & 0b11;
    ((func3 << 13)
        | (imm_5_3 << 10)
        | ((base & 0b111) << 7)
        | (imm_7_6 << 5)
        | ((reg & 0b111) << 2)) as u64
}

// C.LWSP.
fn stack_load_word(rd: usize, imm: usize) -> u64
    ensures { result ≡ build c_lwsp (operands rd 2 0b010 imm) }
{
    let imm_4_2 = (imm >> 2) & 0b111;
    let imm_5 = (imm >> 5) & 0b1;
    let imm_7_6 = (imm >> 6) & 0b11;
    ((0b010 << 13)
        | (imm_5 << 12)
        | ((rd & 0b11111) << 7)
        | (imm_4_2 << 4)
        | (imm_7_6 << 2)
        | 0b10) as u64
}

// C.LDSP.
fn stack_load_double(rd: usize, imm: usize) -> u64
    ensures { result ≡ build c_ldsp (operands rd 2 0b011 imm) }
{
    let imm_4_3 = (imm >> 3) & 0b11;
    let imm_5 = (imm >> 5) & 0b1;
    let imm_8_6 = (imm >> 6) & 0b111;
    ((0b011 << 13)
        | (imm_5 << 12)
        | ((rd & 0b11111) << 7)
        | (imm_4_3 << 5)
        | (imm_8_6 << 2)
        | 0b10) as u64
}

// C.SWSP.
fn stack_store_word(rs2: usize, imm: usize) -> u64
    ensures { result ≡ build c_swsp (operands rs2 2 0b10 imm) }
{
    let imm_5_2 = (imm >> 2) & 0b1111;
    let imm_7_6 = (imm >> 6) & 0b11;
    ((0b110 << 13) | (imm_5_2 << 9) | (imm_7_6 << 7) | ((rs2 & 0b11111) << 2) | 0b10) as u64
}

// C.SDSP.
fn stack_store_double(rs2: usize, imm: usize) -> u64
    ensures { result ≡ build c_sdsp (operands rs2 2 0b11 imm) }
{
    let imm_5_3 = (imm >> 3) & 0b111;
    let imm_8_6 = (imm >> 6) & 0b111;
    ((0b111 << 13) | (imm_5_3 << 10) | (imm_8_6 << 7) | ((rs2 & 0b11111) << 2) | 0b10) as u64
}

// A 32-bit load.
fn load_word(rd: usize, rs1: usize, func3: usize, imm: usize) -> u64
    ensures { result ≡ build load (operands rd rs1 func3 imm) }
{
    let imm_11_0 = imm & 0b111111111111;
    ((imm_11_0 << 20)
        | ((rs1 & 0b11111) << 15)
        | ((func3 & 0b111) << 12)
        | ((rd & 0b11111) << 7)
        | 0x03) as u64
}

// A 32-bit store.
fn store_word(rs2: usize, rs1: usize, func3: usize, imm: usize) -> u64
    ensures { result ≡ build store (operands rs2 rs1 func3 imm) }
{
    let imm_11_5 = (imm >> 5) & 0b1111111;
    let imm_4_0 = imm & 0b11111;
    ((imm_11_5 << 25)
        | ((rs2 & 0b11111) << 20)
        | ((rs1 & 0b11111) << 15)
        | ((func3 & 0b11) << 12)
        | (imm_4_0 << 7)
        | 0x23) as u64
}

// funct3 of a load's width and sign.
fn load_func3(len: Width, is_unsigned: bool) -> usize
    ensures { result ≡ funct3_of len is_unsigned }
{
    let size = size_of(len);
    if is_unsigned { 4 + size } else { size }
}

// funct3 of a signed load's width, and of a store's.
fn size_of(len: Width) -> usize
    ensures { result ≡ size_of len }
{
    match len {
        Width::Byte => 0b00,
        Width::Byte2 => 0b01,
        Width::Byte4 => 0b10,
        Width::Byte8 => 0b11,
    }
}
