// A finite value as a whole number of 2^-1074, and the product of two numbers of 64 binary digits. Document 02, A.4.
#![tactic(auto)]

ghost use Rattle.std.specs.Prelude.{◌≡◌, true, ◌+◌, ◌*◌, ◌^◌};
ghost use Rattle.model.specs.Arith.{is_finite};
ghost use Rattle.digits.specs.Parted.{Parted};

// A value's sign, its binary digits as a whole number, and by how many places these are shifted.
#[derive(Clone, Copy)]
pub struct Shifted {
    pub minus: bool,
    pub digits: u64,
    pub shift: u32,
}

// A number of two words.
#[derive(Clone, Copy)]
pub struct Wide {
    pub low: u64,
    pub high: u64,
}

// A leading digit, above a fraction's 52 bits.
const LEADING: u64 = 1 << 52;

// v 2^1074 = ± digits 2^shift: the digits have their leading 1 where the exponent isn't 0, and are shifted by one less than it.
pub fn parts(v: f64) -> Shifted
    requires { is_finite v ≡ true }
    ensures { Parted v result }
{
    // bit 63, bits 62 to 52, and bits 51 to 0
    let bits = v.to_bits();
    let minus = bits >> 63 != 0;
    let exponent = ((bits >> 52) & 0x7ff) as u32;
    let fraction = bits & (LEADING - 1);
    if exponent == 0 {
        return Shifted {
            minus,
            digits: fraction,
            shift: 0,
        };
    }
    Shifted {
        minus,
        digits: LEADING + fraction,
        shift: exponent - 1,
    }
}

// a b = low + 2^64 high.
pub fn product(a: u64, b: u64) -> Wide
    ensures { result.low + 2 ^ 64 * result.high ≡ a * b }
{
    let (low, high) = a.carrying_mul(b, 0);
    Wide { low, high }
}
