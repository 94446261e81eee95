// One component of a vertex attribute, as an exact single: document 01, "Vertex layout".
// A format is its number: both functions take every number, as their promises do, and those above 4 count as f32.
#![tactic(auto)]

ghost use Rattle.std.specs.Prelude.{◌≡◌, ◌%◌, ◌≤◌};
ghost use Rattle.component.specs.Single.{size};
ghost use Rattle.component.specs.Component.{width_of, two_to, Quotient, Decoded};

use std::num::f32_from_bits_with_nan;

// The bytes of a component: formats 0 to 4 have 1, 1, 2, 2, 4, and all above count as f32.
pub fn width(format: u32) -> u32
    ensures { result ≡ width_of format }
{
    match format {
        0 | 1 => 1,
        2 | 3 => 2,
        _ => 4,
    }
}

// 2 to the power of minus a shift, which counts modulo 32.
fn power(shift: u32) -> f32
    ensures { result ≡ two_to (shift % 32) }
{
    f32::from_bits((127 - shift % 32) * 0x80_0000)
}

// n over 2 to the power of a shift, of an integer of 16 bits, signed or not.
fn quotient(n: i32, shift: u32) -> f32
    requires { size n ≤ 65536 }
    ensures { Quotient n (shift % 32) result }
{
    n as f32 * power(shift)
}

// The component that the low bytes of a raw number stand for, at a shift modulo 32.
pub fn decode_component(format: u32, raw: u32, shift: u32) -> f32
    ensures { Decoded format raw shift result }
{
    match format {
        0 => quotient((raw % 0x100) as i32, shift),
        1 => quotient(i32::from(((raw % 0x100) as u8).cast_signed()), shift),
        2 => quotient((raw % 0x1_0000) as i32, shift),
        3 => quotient(i32::from(((raw % 0x1_0000) as u16).cast_signed()), shift),
        _ => f32_from_bits_with_nan(raw),
    }
}
