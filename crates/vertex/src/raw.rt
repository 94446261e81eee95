// The patterns of an attribute's f32 components.
ghost use Rattle.std.specs.Prelude.{◌≡◌, ◌<◌};
ghost use Rattle.vertex.specs.Attributes.{singles_of, word_at, words_of};

use fields::{Descriptor, Mode};
// How many f32 components attribute k has: none where it is absent, indexed, a matrix or a colour, or in another format.
pub fn count(descriptor: Descriptor, k: usize) -> u32
    ensures { result ≡ singles_of descriptor k }
{
    let field = fields::read_field(descriptor, k);
    match field.mode {
        Mode::Direct if field.format == 4 && !fields::is_colour(k) => {
            fields::components(k, field.count)
        }
        _ => 0,
    }
}

// Word i of n that start at a place, 0 from the n-th on.
fn word_at(vertex: &[u8], at: u8, n: u32, i: usize) -> u32
    requires { i < 9 }
    ensures { result ≡ word_at vertex.now at n i }
{
    let i = i as u32;
    if i < n {
        octets::read(vertex, u32::from(at) + i * 4, 4)
    } else {
        0
    }
}

// Nine words: n from a place on, and zeros.
pub fn gather(vertex: &[u8], at: u8, n: u32) -> [u32; 9]
    ensures { result ≡ words_of vertex.now at n }
{
    let mut words = [0; 9];
    for i in 0..9 {
        words[i] = word_at(vertex, at, n, i);
    }
    words
}
