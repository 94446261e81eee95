// A command of any class executed on the registers, the XF words and the vertex buffer that are lent.
#![tactic(auto)]

ghost use Rattle.std.specs.Prelude.{◌≡◌, ◌+◌, ◌*◌, ◌≤◌, length};
ghost use Rattle.octets.specs.BigEndian.{big_endian};
ghost use Rattle.command.specs.Command.{numbers_of};
ghost use Rattle.effect.specs.Effect.{loaded_xf, stored_xf, Applied};
ghost use Rattle.execution.specs.Inner.{four_stored};

use command::Command;
use effect::{copy_vertex, load_bp, load_cp};

// The word at a place of the bytes.
// Private, and without a test for the end, which `octets::word_at` has to make: a public function asks nothing of its callers.
#[tactic(auto, unfolding(octets::specs::BigEndian::big_endian))]
fn word_at(bytes: &[u8], at: usize) -> u32
    requires { at + 4 ≤ length bytes.now }
    ensures { result ≡ big_endian bytes.now at 4 }
{
    u32::from_be_bytes([bytes[at], bytes[at + 1], bytes[at + 2], bytes[at + 3]])
}

// Four words from a place of the bytes on: all are read before one is stored.
// Written out, with places beside both lists: that all are read before one is stored stands in the order of the lines.
#[tactic(auto, unfolding(crate::specs::Inner::four_stored))]
fn store_four(xf: &mut [u32], bytes: &[u8], to: usize, at: usize)
    requires { (at + 16 ≤ length bytes.now) × (to + 4 ≤ length xf.old) }
    ensures { xf.new ≡ four_stored xf.old bytes.now to at }
{
    let a = word_at(bytes, at);
    let b = word_at(bytes, at + 4);
    let c = word_at(bytes, at + 8);
    let d = word_at(bytes, at + 12);
    xf[to] = a;
    xf[to + 1] = b;
    xf[to + 2] = c;
    xf[to + 3] = d;
}

// The words of an XF load, from its unit's bytes: four at a time, then the rest.
// By index: of slices written through `iter_mut` or in chunks a proof knows the length alone.
#[tactic(auto, unfolding(effect::specs::Effect::stored_xf))]
fn store_xf(xf: &mut [u32], bytes: &[u8], address: usize, words: usize)
    requires { (5 + 4 * words ≤ length bytes.now) × ((address + words ≤ length xf.old) × (words ≤ 255)) }
    ensures { xf.new ≡ stored_xf xf.old bytes.now address words }
{
    for four in 0..words / 4 {
        let i = 4 * four;
        store_four(xf, bytes, address + i, 5 + 4 * i);
    }
    for i in words - words % 4..words {
        xf[address + i] = word_at(bytes, 5 + 4 * i);
    }
}

// An XF load; nothing where the unit or the memory is too short for its words.
#[tactic(auto, unfolding(effect::specs::Effect::loaded_xf))]
pub fn load_xf(xf: &mut [u32], bytes: &[u8], words: u8, address: u16)
    ensures { xf.new ≡ loaded_xf xf.old bytes.now words address }
{
    let n = words as usize;
    let at = address as usize;
    if (5 + 4 * n <= bytes.len()) & (at + n <= xf.len()) {
        store_xf(xf, bytes, at, n);
    }
}

// The effect of a command on what is lent, from its unit's bytes.
// A match: each command has fields of its own and changes another part of what is lent.
pub fn apply(
    command: Command,
    bytes: &[u8],
    cp: &mut [u32; 60],
    bp: &mut [u32],
    xf: &mut [u32],
    buffer: &mut [u8],
)
    ensures { Applied (numbers_of command) bytes.now
        cp.old bp.old xf.old buffer.old
        cp.new bp.new xf.new buffer.new }
{
    match command {
        Command::LoadBp { register, number } => load_bp(bp, register, number),
        Command::LoadXf { words, address } => load_xf(xf, bytes, words, address),
        Command::LoadCp { address, number } => load_cp(cp, address, number),
        Command::Vertex => copy_vertex(buffer, bytes),
        _ => {}
    }
}
