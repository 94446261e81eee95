// Refusals 1 to 5, in their order.
ghost use Rattle.std.specs.Prelude.{◌≡◌, [], ◌∷◌, fold, bit_or};
ghost use Rattle.machine.specs.Gate.{cp_fits, bp_fits, draw_fits, registers_fit, state_fits, gate_by, meaning_of_gate};

use command::{Draw, LARGEST_VERTEX};
use fifo::Fifo;
use refusal::Reason;

// Values joined bit by bit: below a power of two exactly where each of them is.
fn join(values: &[u32]) -> u32
    ensures { result ≡ fold bit_or 0 values.now }
{
    values.iter().fold(0, |joined, value| joined | value)
}

// Bases of 26 bits, strides of 8.
fn cp_fits(cp: &[u32; 60]) -> bool
    ensures { result ≡ cp_fits cp.now }
{
    let bases = &cp[places::BASES..places::BASES + 16];
    let strides = &cp[places::STRIDES..places::STRIDES + 16];
    (join(bases) < 0x400_0000) & (join(strides) < 256)
}

// BP registers of 24 bits. For the 256 that there are the slice's length is a constant, which the compiler makes use of.
fn bp_fits(bp: &[u32]) -> bool
    ensures { result ≡ bp_fits bp.now }
{
    if bp.len() == 256 {
        return join(&bp[..256]) < 0x100_0000;
    }
    join(bp) < 0x100_0000
}

// An open draw has a vertex left, and a primitive and a format of three bits.
#[tactic(auto, unfolding(crate::specs::Gate::draw_fits))]
fn draw_fits(draw: Draw) -> bool
    ensures { result ≡ draw_fits draw }
{
    match draw {
        Draw::Closed => true,
        Draw::Open {
            primitive,
            format,
            left,
        } => (1 <= left) & ((primitive < 8) & (format < 8)),
    }
}

// The part of 1 that is about the registers and the draw: BP registers of 24 bits, bases, strides, the draw's numbers.
#[tactic(auto, unfolding(crate::specs::Gate::registers_fit))]
pub fn registers_fit(cp: &[u32; 60], bp: &[u32], draw: Draw) -> bool
    ensures { result ≡ registers_fit cp.now bp.now draw }
{
    bp_fits(bp) & (cp_fits(cp) & draw_fits(draw))
}

// The whole of 1.
#[tactic(auto, unfolding(crate::specs::Gate::state_fits, crate::specs::Gate::control_fits))]
fn state_fits(fifo: Fifo, cp: &[u32; 60], bp: &[u32], draw: Draw, ring: usize) -> bool
    ensures { result ≡ state_fits fifo cp.now bp.now draw ring }
{
    fifo::ready(fifo, ring) & ((fifo.control < 64) & registers_fit(cp, bp, draw))
}

// The first of 1 to 5 that applies, for a ring, XF words and a vertex buffer of such lengths.
#[tactic(auto, unfolding(crate::specs::Gate::gate_by))]
pub fn pass(
    fifo: Fifo,
    cp: &[u32; 60],
    bp: &[u32],
    draw: Draw,
    ring: usize,
    xf: usize,
    buffer: usize,
) -> Result<(), Reason>
    ensures { meaning_of_gate result ≡ gate_by fifo cp.now bp.now draw ring xf buffer ∷ [] }
{
    if !state_fits(fifo, cp, bp, draw, ring) {
        return Err(Reason::InvalidState);
    }
    if xf != places::XF_LENGTH {
        return Err(Reason::XfMemoryLength);
    }
    if buffer < LARGEST_VERTEX {
        return Err(Reason::VertexBufferShort);
    }
    let control = fifo.control;
    if control % 2 == 0 {
        return Err(Reason::ReadDisabled);
    }
    if control / 16 % 2 != 0 {
        return Err(Reason::LinkedMode);
    }
    Ok(())
}
