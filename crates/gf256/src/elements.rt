// Single elements, by tables of the powers of 2 and of their exponents.
ghost use Rattle.std.specs.Prelude.{◌≡◌, ◌≢◌};
ghost use Rattle.gf256.specs.Field.{inverse_of, product, two_to};

use crate::tables::{EXPONENTS, POWERS};

/// The product of two elements.
pub fn mul(a: u8, b: u8) -> u8
    ensures { result ≡ product a b }
{
    if a == 0 || b == 0 {
        return 0;
    }
    let sum = EXPONENTS[a as usize] as usize + EXPONENTS[b as usize] as usize;
    POWERS[sum % 255]
}

/// The one element whose product with `a` is 1, where `a` isn't 0.
pub fn inverse(a: u8) -> u8
    requires { a ≢ 0 }
    ensures undoes { product a result ≡ 1 }
    ensures value { result ≡ inverse_of a }
{
    POWERS[(255 - EXPONENTS[a as usize] as usize) % 255]
}

/// 2 to the power of `n`.
pub fn power(n: u32) -> u8
    ensures { result ≡ two_to n }
{
    POWERS[n as usize % 255]
}
