// What the stream goes on with: the first byte decides the class of a command; draw heads and vertices are recognised by their layout.
#![tactic(auto)]

ghost use Rattle.std.specs.Prelude.{◌≡◌};
ghost use Rattle.command.specs.Command.{meaning};
ghost use Rattle.command.specs.Look.{look_head, look_vertex, descriptor_of, look_of, vertex_bytes};

use command::{
    Command, Draw, StepAnswer, look_bp, look_call, look_cp, look_indexed, look_xf, unit,
};
use fields::Descriptor;
use refusal::Reason;

// The VCD and the VAT of a format, as the registers stand; a format counts modulo 8.
fn descriptor(cp: &[u32; 60], format: u8) -> Descriptor
    ensures { result ≡ descriptor_of cp.now format }
{
    let f = format % 8;
    Descriptor {
        vcd0: cp[places::vcd_place(0)],
        vcd1: cp[places::vcd_place(1)],
        vat0: cp[places::vat_place(f, 0)],
        vat1: cp[places::vat_place(f, 1)],
        vat2: cp[places::vat_place(f, 2)],
    }
}

// 80 to BF. The opcode decides 9 and 10.
#[tactic(auto, using(command::proofs::Refusals::unless_refused_lem), unfolding(command::specs::Look::look_head))]
fn look_head(op: u8, b: [u8; 9], count: u32, cp: &[u32; 60]) -> StepAnswer
    ensures { meaning result ≡ look_head op b count cp.now }
{
    if let Err(reason) = layout::measure(descriptor(cp, op % 8)) {
        return StepAnswer::Refused(reason);
    }
    let command = Command::DrawHead {
        primitive: op / 8 % 8,
        format: op % 8,
        count: octets::half(b[1], b[2]),
    };
    unit(count, 3, command, 0)
}

// A vertex of an open draw. 9 and 10 need no byte.
fn look_vertex(count: u32, cp: &[u32; 60], format: u8) -> StepAnswer
    ensures { meaning result ≡ look_vertex count cp.now format }
{
    match layout::measure(descriptor(cp, format)) {
        Err(reason) => StepAnswer::Refused(reason),
        Ok(length) => unit(count, length, Command::Vertex, 0),
    }
}

// The next command: where no byte is there, one is lacking; the first decides its class.
#[tactic(auto, unfolding(command::specs::Look::look_of, command::specs::Look::by_opcode))]
fn look_command(b: [u8; 9], count: u32, cp: &[u32; 60]) -> StepAnswer
    ensures { meaning result ≡ look_of b count cp.now Draw.Closed }
{
    if count == 0 {
        return StepAnswer::Waiting(1);
    }
    let op = b[0];
    match op {
        0x00 => unit(count, 1, Command::NoOperation, 0),
        0x48 => unit(count, 1, Command::InvalidateCache, 0),
        0x44 => unit(count, 1, Command::Metrics, 0),
        0x08 => look_cp(b, count),
        0x10 => look_xf(b, count),
        0x20 | 0x28 | 0x30 | 0x38 => look_indexed(op, b, count, cp),
        0x40 => look_call(b, count),
        0x61 => look_bp(b, count),
        0x80..=0xBF => look_head(op, b, count, cp),
        _ => StepAnswer::Refused(Reason::UnknownOpcode),
    }
}

// The bytes of a vertex of a format, 0 where its layout is refused.
pub fn vertex_bytes(cp: &[u32; 60], format: u8) -> u32
    ensures { result ≡ vertex_bytes cp.now format }
{
    layout::measure(descriptor(cp, format)).unwrap_or(0)
}

// What the stream goes on with: its first nine bytes, zeros past the last, and how many there are in all.
#[tactic(auto, unfolding(command::specs::Look::look_of))]
pub fn look(b: [u8; 9], count: u32, cp: &[u32; 60], draw: Draw) -> StepAnswer
    ensures { meaning result ≡ look_of b count cp.now draw }
{
    match draw {
        Draw::Closed => look_command(b, count, cp),
        Draw::Open { format, .. } => look_vertex(count, cp, format),
    }
}
