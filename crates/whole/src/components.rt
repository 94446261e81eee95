// The components of an attribute by their bits, up to three at once, none past the end of the vertex.
// Not by `octets::read`, which is public and tests each byte.
ghost use Rattle.std.specs.Prelude.{◌≡◌, ◌+◌, ◌*◌, ◌<◌, ◌≤◌, length};
ghost use Rattle.std.specs.Float.{binary32};
ghost use Rattle.std.specs.Float.Ieee.{of_bits, to_bits};
ghost use Rattle.octets.specs.BigEndian.{big_endian, at_most_four};
ghost use Rattle.component.specs.Component.{width_of, component_of};
ghost use Rattle.vertex.specs.Attributes.{bits_of};
ghost use Rattle.whole.specs.Inner.{three_list, frame_list};

use std::num::f32_to_bits_with_nan;

// The byte at a place.
fn byte_in(vertex: &[u8], at: usize) -> u32
    requires { at + 1 ≤ length vertex.now }
    ensures { result ≡ big_endian vertex.now at 1 }
{
    u32::from(vertex[at])
}

// The two bytes from a place on.
fn half_in(vertex: &[u8], at: usize) -> u32
    requires { at + 2 ≤ length vertex.now }
    ensures { result ≡ big_endian vertex.now at 2 }
{
    u32::from(octets::half(vertex[at], vertex[at + 1]))
}

// The four bytes from a place on.
fn word_in(vertex: &[u8], at: usize) -> u32
    requires { at + 4 ≤ length vertex.now }
    ensures { result ≡ big_endian vertex.now at 4 }
{
    octets::word(vertex[at], vertex[at + 1], vertex[at + 2], vertex[at + 3])
}

// The three bytes from a place on.
fn three_in(vertex: &[u8], at: usize) -> u32
    requires { at + 3 ≤ length vertex.now }
    ensures { result ≡ big_endian vertex.now at 3 }
{
    octets::word(0, vertex[at], vertex[at + 1], vertex[at + 2])
}

// The number of n bytes from a place on, of more than four the first four.
pub fn number_in(vertex: &[u8], at: usize, n: u32) -> u32
    requires { (1 ≤ n) × (at + n ≤ length vertex.now) }
    ensures { result ≡ big_endian vertex.now at (at_most_four n) }
{
    match n {
        1 => byte_in(vertex, at),
        2 => half_in(vertex, at),
        3 => three_in(vertex, at),
        _ => word_in(vertex, at),
    }
}

// The bits of a component in a format.
fn single(format: u32, raw: u32, fraction: u32) -> u32
    ensures { result ≡ to_bits binary32 (component_of format raw fraction) }
{
    f32_to_bits_with_nan(component::decode_component(format, raw, fraction))
}

// The bits of an f32 as they stand; every NaN is told as one. By hand: through std's `f32_from_bits_with_nan` and `f32_to_bits_with_nan`,
// as `single` has it, the bits are tested twice, and each component takes four more instructions.
fn kept(raw: u32) -> u32
    ensures { result ≡ to_bits binary32 (of_bits binary32 raw) }
{
    if raw % 0x8000_0000 > 0x7F80_0000 {
        0x7FC0_0000
    } else {
        raw
    }
}

// Components in a vertex: where the first of them starts, their format and their fraction bits.
#[derive(Clone, Copy)]
pub struct Components<'a> {
    pub vertex: &'a [u8],
    pub at: usize,
    pub format: u32,
    pub fraction: u32,
}

impl Components<'_> {
    // The bits of component i.
    #[inline(always)]
    fn bits(&self, i: usize) -> u32
        requires { self.now.at + (i + 1) * width_of self.now.format ≤ length self.now.vertex.now }
        ensures { result ≡ bits_of self.now.vertex.now self.now.at self.now.format self.now.fraction i }
    {
        let vertex = self.vertex;
        let at = self.at;
        let fraction = self.fraction;
        match self.format {
            0 => single(0, byte_in(vertex, at + i * 1), fraction),
            1 => single(1, byte_in(vertex, at + i * 1), fraction),
            2 => single(2, half_in(vertex, at + i * 2), fraction),
            3 => single(3, half_in(vertex, at + i * 2), fraction),
            _ => kept(word_in(vertex, at + i * 4)),
        }
    }

    // The first n components, of at most three, and 0 for each that is absent.
    #[inline(always)]
    fn gather(&self, n: u32) -> [u32; 3]
        requires { (1 ≤ n) × (self.now.at + n * width_of self.now.format ≤ length self.now.vertex.now) }
        ensures { result ≡ three_list self.now.vertex.now self.now.at self.now.format self.now.fraction n }
    {
        let x = self.bits(0);
        if n < 2 {
            return [x, 0, 0];
        }
        let y = self.bits(1);
        if n < 3 {
            return [x, y, 0];
        }
        [x, y, self.bits(2)]
    }

    // The same, with the format chosen once for all of them: chosen at each component it takes more instructions.
    pub fn up_to_three(&self, n: u32) -> [u32; 3]
        requires { (1 ≤ n) × (self.now.at + n * width_of self.now.format ≤ length self.now.vertex.now) }
        ensures { result ≡ three_list self.now.vertex.now self.now.at self.now.format self.now.fraction n }
    {
        match self.format {
            0 => Components { format: 0, ..*self }.gather(n),
            1 => Components { format: 1, ..*self }.gather(n),
            2 => Components { format: 2, ..*self }.gather(n),
            3 => Components { format: 3, ..*self }.gather(n),
            _ => Components { format: 4, ..*self }.gather(n),
        }
    }

    // A normal of nine components.
    pub fn frame(&self) -> [u32; 10]
        requires { self.now.at + 9 * width_of self.now.format ≤ length self.now.vertex.now }
        ensures { result ≡ frame_list self.now.vertex.now self.now.at self.now.format self.now.fraction }
    {
        let mut frame = [8; 10];
        for i in 0..9 {
            frame[i + 1] = self.bits(i);
        }
        frame
    }
}
