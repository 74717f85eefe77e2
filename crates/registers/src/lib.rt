// General purpose registers, of Miralis's src/arch/registers.rs. Its CSRs are in the crate `csr_addresses`.
#![tactic(auto)]

ghost use Rattle.std.specs.Prelude.{◌≡◌, ◌%◌, ◌^◌};
ghost use Rattle.utils.specs.Field.{fld};
ghost use Rattle.registers.specs.Numbers.{are_valid};

// General purpose registers.
//
// The number may be any: reading makes only 0 to 31, and writing refuses the others.
#[derive(Clone, Copy)]
pub struct Register(pub usize);

// Masks high order bits.
impl From<usize> for Register {
    ghost from_gives = { λ value r. r ≡ record { 0 = value % 2 ^ 5 } };

    fn from(value: usize) -> Self {
        Register(value & 0b11111)
    }
}

// The register in bits k+4:k of `raw`; a bit past bit 63 is 0.
pub fn register_at(raw: usize, k: usize) -> Register
    ensures { result ≡ record { 0 = fld raw k 5 } }
{
    if 64 <= k {
        return Register(0);
    }
    Register::from((raw >> k) & 0b11111)
}

// Whether both numbers are those of registers, 0 to 31: what a word's fields of five bits hold.
pub fn are_valid(a: usize, b: usize) -> bool
    ensures { result ≡ are_valid a b }
{
    a <= 31 && b <= 31
}
