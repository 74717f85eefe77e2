// The arithmetic of Miralis's src/utils.rs, and `Width` of its src/arch/mod.rs: widths of accesses, signed fields, sign
// extension, addresses.
#![tactic(auto)]

ghost use Rattle.std.specs.Prelude.{◌≡◌, ◌+◌, ◌%◌, ◌^◌, ◌<◌, ◌≤◌};
ghost use Rattle.utils.specs.Field.{fld};
ghost use Rattle.utils.specs.Signed.{signed, twos, parts, code_def};
ghost use Rattle.utils.specs.Width.{bits_of, bytes_of, IsWidthFrom, half_of, extended};

// Represents different data widths:
//  - `Byte`: 8 bits (1 byte)
//  - `Byte2`: 16 bits (2 bytes)
//  - `Byte4`: 32 bits (4 bytes)
//  - `Byte8`: 64 bits (8 bytes)
#[derive(Clone, Copy)]
pub enum Width {
    Byte,
    Byte2,
    Byte4,
    Byte8,
}

impl Width {
    pub fn to_bits(self) -> usize
        ensures { result ≡ bits_of self }
    {
        match self {
            Width::Byte => 8,
            Width::Byte2 => 16,
            Width::Byte4 => 32,
            Width::Byte8 => 64,
        }
    }

    pub fn to_bytes(self) -> usize
        ensures { result ≡ bytes_of self }
    {
        self.to_bits() / 8
    }
}

// A number of bits that no width has.
#[derive(Clone, Copy)]
pub struct UnknownWidth(pub usize);

// The width of so many bits; the Rust panics if there is no such width.
impl TryFrom<usize> for Width {
    type Error = UnknownWidth;

    ghost try_from_gives = { IsWidthFrom };

    fn try_from(bits: usize) -> Result<Self, UnknownWidth> {
        match bits {
            8 => Ok(Width::Byte),
            16 => Ok(Width::Byte2),
            32 => Ok(Width::Byte4),
            64 => Ok(Width::Byte8),
            _ => Err(UnknownWidth(bits)),
        }
    }
}

// Compute the address from a base address plus an immediate: the sum modulo 2^64, also where the Rust overflows.
pub fn calculate_addr(self_value: usize, imm: isize) -> usize
    ensures { result ≡ (self_value + twos (2 ^ 63) imm) % 2 ^ 64 }
{
    self_value.wrapping_add_signed(imm)
}

// Performs a sign extension assuming the provided width of the value.
pub fn sign_extend(value: usize, width: Width) -> usize
    ensures { result ≡ extended (half_of width) value }
{
    match width {
        Width::Byte => extend(value, 0x80),
        Width::Byte2 => extend(value, 0x8000),
        Width::Byte4 => extend(value, 0x8000_0000),
        Width::Byte8 => value, // Already 64 bits, nothing to do
    }
}

// The low bits of value, twice half of them being its codes, with the sign bit copied upwards.
fn extend(value: usize, half: usize) -> usize
    requires { (0 < half) × (half ≤ 2 ^ 31) }
    ensures { result ≡ extended half value }
{
    let low = value % (2 * half);
    if low < half {
        low
    } else {
        low + (usize::MAX - (2 * half - 1))
    }
}

// Extracts the bitwise representation and set to the corresponding signed value: the twelve bits from `start_bit` up, which
// are all that the decoder asks for (the Rust's `end_bit` is `start_bit + 11` in every call).
pub fn bits_to_int(raw: usize, start_bit: usize) -> isize
    ensures { result ≡ signed 2048 (fld raw start_bit 12) }
{
    if 64 <= start_bit {
        return 0;
    }
    let value = (raw >> start_bit) % 4096;

    // Half a turn puts the codes in the order of the numbers that they mean, from -2048 up, so the sign bit needs no branch
    let turned = (value + 2048) % 4096;
    (turned as isize) - 2048
}

// A signed number taken apart: n is Up(n), and -(m + 1) is Down(m), so that the least isize has its place too.
#[derive(Clone, Copy)]
pub enum Sign {
    Up(usize),
    Down(usize),
}

// All that looks at a sign goes through here, and works on with unsigned numbers.
pub fn sign_of(z: isize) -> Sign
    ensures { result ≡ parts z }
{
    if z < 0 {
        Sign::Down((-1 - z) as usize)
    } else {
        Sign::Up(z as usize)
    }
}

// The code of imm in two's complement, of which twice half are there; the way back from `bits_to_int` at half 2048.
pub fn code_of(imm: isize, half: u32) -> Option<usize>
    ensures { result ≡ code_def half imm }
{
    let half = half as usize;
    match sign_of(imm) {
        Sign::Up(n) => if n < half { Some(n) } else { None },
        Sign::Down(m) => if m < half {
            Some(2 * half - 1 - m)
        } else {
            None
        },
    }
}

// The low sixteen bits of an immediate, in two's complement.
pub fn sixteen_bits(imm: isize) -> usize
    ensures { result ≡ twos (2 ^ 63) imm % 65536 }
{
    (imm & 0xFFFF) as usize
}
