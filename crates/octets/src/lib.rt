// "All multi-byte numbers in the stream are big-endian": numbers as they stand in bytes.
#![tactic(auto)]

ghost use Rattle.std.specs.Prelude.{◌≡◌, ◌+◌, ◌*◌, ◌<◌, get_or};
ghost use Rattle.octets.specs.BigEndian.{big_endian, at_most_four, with_words};

// The byte at a place, 0 past the end.
// 0 past the end: so `big_endian` has it, which every reader of numbers promises.
pub fn byte(bytes: &[u8], at: usize) -> u8
    ensures { result ≡ get_or bytes.now at 0 }
{
    bytes.get(at).copied().unwrap_or(0)
}

// Two bytes, the highest first.
pub fn half(a: u8, b: u8) -> u16
    ensures { result ≡ a * 256 + b }
{
    u16::from_be_bytes([a, b])
}

// Four bytes, the highest first.
pub fn word(a: u8, b: u8, c: u8, d: u8) -> u32
    ensures { result ≡ ((a * 256 + b) * 256 + c) * 256 + d }
{
    u32::from_be_bytes([a, b, c, d])
}

// Two bytes from a place on, 0 for each past the end.
// Two widths, two functions: `from_be_bytes` is of one type each. Past the end they read 0, so they take bytes and a place, and no slice.
#[tactic(auto, unfolding(crate::specs::BigEndian::big_endian))]
pub fn half_at(bytes: &[u8], at: u32) -> u16
    ensures { result ≡ big_endian bytes.now at 2 }
{
    let place = at as usize;
    if place + 2 <= bytes.len() {
        return half(bytes[place], bytes[place + 1]);
    }
    half(byte(bytes, place), byte(bytes, place + 1))
}

// Four bytes from a place on, 0 for each past the end.
#[tactic(auto, unfolding(crate::specs::BigEndian::big_endian))]
pub fn word_at(bytes: &[u8], at: u32) -> u32
    ensures { result ≡ big_endian bytes.now at 4 }
{
    let place = at as usize;
    if place + 4 <= bytes.len() {
        return word(
            bytes[place],
            bytes[place + 1],
            bytes[place + 2],
            bytes[place + 3],
        );
    }
    word(
        byte(bytes, place),
        byte(bytes, place + 1),
        byte(bytes, place + 2),
        byte(bytes, place + 3),
    )
}

// The number of the n bytes from place `at` on; a place past the end reads 0, and more than four bytes count as four.
// A match on how many bytes: each width is read by its own function of std.
#[tactic(auto, unfolding(crate::specs::BigEndian::big_endian))]
pub fn read(bytes: &[u8], at: u32, n: u32) -> u32
    ensures { result ≡ big_endian bytes.now at (at_most_four n) }
{
    let place = at as usize;
    match n {
        0 => 0,
        1 => u32::from(byte(bytes, place)),
        2 => u32::from(half_at(bytes, at)),
        3 => u32::from(half_at(bytes, at)) * 256 + u32::from(byte(bytes, place + 2)),
        _ => word_at(bytes, at),
    }
}

// Writes words to the front of an output that has room for all of them; else nothing.
// By place: of a list written in chunks a proof knows the length alone.
#[tactic(auto, using(crate::proofs::Words::state_none, crate::proofs::Words::state_next))]
pub fn write_words(words: &[u32], out: &mut [u8])
    ensures { out.new ≡ with_words words.now out.old }
{
    if out.len() / 4 < words.len() {
        return;
    }
    for (i, word) in words.iter().enumerate() {
        let place = 4 * i;
        out[place..place + 4].copy_from_slice(&word.to_be_bytes());
    }
}
