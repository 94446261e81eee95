// A vertex descriptor from five words, and decoded attributes as numbers.
ghost use Rattle.std.specs.Prelude.{◌≡◌, [], ◌∷◌};
ghost use Rattle.vertex.specs.Answers.{told, triple_bits};
ghost use Rattle.encoding.specs.Told.{padded};
ghost use Rattle.encoding.specs.Named.{format_named};

use fields::Descriptor;
use std::num::f32_to_bits_with_nan;
use vertex::{Attribute, Triple};

// The vertex format that five words name. A From would stand in `fields`, which knows nothing of words.
#[tactic(auto, unfolding(crate::specs::Named::format_named))]
pub fn descriptor(words: &[u32; 5]) -> Descriptor
    ensures { result ≡ format_named words.now }
{
    Descriptor {
        vcd0: words[0],
        vcd1: words[1],
        vat0: words[2],
        vat1: words[3],
        vat2: words[4],
    }
}

// Three floats by their bits.
// A From would stand in `vertex`, which knows nothing of words.
fn triple_words(t: Triple) -> [u32; 3]
    ensures { result ≡ triple_bits t [] }
{
    [
        f32_to_bits_with_nan(t.x),
        f32_to_bits_with_nan(t.y),
        f32_to_bits_with_nan(t.z),
    ]
}

// An attribute's kind and values, then zeros.
pub fn attribute_words(attribute: Attribute) -> [u32; 10]
    ensures { result ≡ padded 10 (told attribute) }
{
    match attribute {
        Attribute::Absent => [0, 0, 0, 0, 0, 0, 0, 0, 0, 0],
        Attribute::Matrix(n) => [1, n, 0, 0, 0, 0, 0, 0, 0, 0],
        Attribute::Index(n) => [2, n, 0, 0, 0, 0, 0, 0, 0, 0],
        Attribute::Indices(a, b, c) => [3, a, b, c, 0, 0, 0, 0, 0, 0],
        Attribute::Colour(n) => [4, n, 0, 0, 0, 0, 0, 0, 0, 0],
        Attribute::Position(t) => {
            let a = triple_words(t);
            [5, a[0], a[1], a[2], 0, 0, 0, 0, 0, 0]
        }
        Attribute::Texture(x, y) => [
            6,
            f32_to_bits_with_nan(x),
            f32_to_bits_with_nan(y),
            0,
            0,
            0,
            0,
            0,
            0,
            0,
        ],
        Attribute::Normal(t) => {
            let a = triple_words(t);
            [7, a[0], a[1], a[2], 0, 0, 0, 0, 0, 0]
        }
        Attribute::Frame(u, v, w) => {
            let a = triple_words(u);
            let b = triple_words(v);
            let c = triple_words(w);
            [8, a[0], a[1], a[2], b[0], b[1], b[2], c[0], c[1], c[2]]
        }
    }
}

// How many f32 components there are, and nine words.
pub fn raw_list(count: u32, w: [u32; 9]) -> [u32; 10]
    ensures { result ≡ count ∷ w }
{
    let mut list = [count; 10];
    list[1..].copy_from_slice(&w);
    list
}
