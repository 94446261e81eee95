// What a command does: on the CP registers, the BP registers, the vertex buffer and the open draw. XF words are stored in `execution`.
#![tactic(auto)]

ghost use Rattle.std.specs.Prelude.{◌≡◌, cond, get_or, set};
ghost use Rattle.command.specs.Command.{numbers_of};
ghost use Rattle.effect.specs.Effect.{kept_of, loaded_cp, loaded_bp, copied, draw_after, opened_by, counted_down, masked};

use command::{Command, Draw};

// One number or the other. It stands alone in a function, so that the compiler makes a conditional move of it and no branch.
fn chosen(test: bool, yes: u32, no: u32) -> u32
    ensures { result ≡ cond test yes no }
{
    if test { yes } else { no }
}

// What a CP register keeps of a number.
#[tactic(auto, unfolding(crate::specs::Effect::kept_of))]
fn kept(address: u8, number: u32) -> u32
    ensures { result ≡ kept_of address number }
{
    if address < 0xA0 {
        return number;
    }
    chosen(address < 0xB0, number % 0x400_0000, number % 256)
}

// A CP load.
#[tactic(auto, unfolding(crate::specs::Effect::loaded_cp))]
pub fn load_cp(cp: &mut [u32; 60], address: u8, number: u32)
    ensures { cp.new ≡ loaded_cp cp.old address number }
{
    let new = kept(address, number);
    if let Some(at) = places::cp_place(address) {
        cp[at] = new;
    }
}

// Of the low 24 bits: old outside the mask, number inside. Nothing is reduced: a higher bit is set where the mask and either of the two
// have it.
#[tactic(auto, unfolding(crate::specs::Effect::masked))]
pub fn replace_bits(old: u32, mask: u32, number: u32) -> u32
    ensures { result ≡ masked old mask number }
{
    (old & (0xFF_FFFF ^ mask)) | (number & mask)
}

// The number of a register, 0 where there is none.
// 0 where there is none: so `stored_bp` has it, for lent words of any number.
fn held(bp: &[u32], at: usize) -> u32
    ensures { result ≡ get_or bp.now at 0 }
{
    bp.get(at).copied().unwrap_or(0)
}

// Stores the number of a register, nothing where there is none.
fn hold(bp: &mut [u32], at: usize, number: u32)
    ensures { bp.new ≡ set bp.old at number }
{
    // By index: after `get_mut` a proof knows the length of the registers alone.
    if at < bp.len() {
        bp[at] = number;
    }
}

// A BP load, by the mask in register FE, which it then sets to FFFFFF unless it was a load of FE.
#[tactic(auto, unfolding(crate::specs::Effect::loaded_bp, crate::specs::Effect::stored_bp))]
pub fn load_bp(bp: &mut [u32], register: u8, number: u32)
    ensures { bp.new ≡ loaded_bp bp.old register number }
{
    let mask = held(bp, 0xFE);
    let at = register as usize;
    let new = replace_bits(held(bp, at), mask, number);
    hold(bp, at, new);
    hold(bp, 0xFE, chosen(register == 0xFE, new, 0xFF_FFFF));
}

// A vertex: its bytes to the front of the buffer, nothing where that is too short.
#[tactic(auto, unfolding(crate::specs::Effect::copied))]
pub fn copy_vertex(buffer: &mut [u8], bytes: &[u8])
    ensures { buffer.new ≡ copied bytes.now buffer.old }
{
    if bytes.len() <= buffer.len() {
        buffer[..bytes.len()].copy_from_slice(bytes);
    }
}

// A draw with that many vertices left, none where there are none.
pub fn draw_of(primitive: u8, format: u8, count: u16) -> Draw
    ensures { result ≡ opened_by primitive format count }
{
    match count {
        0 => Draw::Closed,
        left => Draw::Open {
            primitive,
            format,
            left,
        },
    }
}

// One vertex less.
fn counted_down(draw: Draw) -> Draw
    ensures { result ≡ counted_down draw }
{
    match draw {
        Draw::Closed => Draw::Closed,
        Draw::Open {
            primitive,
            format,
            left,
        } => draw_of(primitive, format, left.saturating_sub(1)),
    }
}

// The open draw after a command: a head opens one, a vertex counts it down, every other command leaves it.
#[tactic(auto, unfolding(crate::specs::Effect::draw_after))]
pub fn next_draw(command: Command, draw: Draw) -> Draw
    ensures { result ≡ draw_after (numbers_of command) draw }
{
    match command {
        Command::DrawHead {
            primitive,
            format,
            count,
        } => draw_of(primitive, format, count),
        Command::Vertex => counted_down(draw),
        _ => draw,
    }
}
