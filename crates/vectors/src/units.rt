// Units that are run off a ring: what is taken, and what a run tells where it stops.
use crate::bench::Bench;
use crate::ring;
use command::Draw;
use running::Ran;
use std::io;

// Runs so many units at most off a ring that holds just these bytes, with registers whose vertices of format 0 have 12 bytes: a position of
// three f32.
fn run(bench: &mut Bench, bytes: &[u8], draw: Draw, limit: u32) -> Ran {
    bench.feed(0x1000, bytes);
    effect::load_cp(&mut bench.registers.cp, 0x50, 0x200);
    effect::load_cp(&mut bench.registers.cp, 0x70, 9);
    bench.registers.draw = draw;
    bench.run(limit)
}

// "Accept 44 without effect; 68 now gives refusal 6": of 44 68 one unit is taken, and 68 stays.
pub fn metrics(rt: &impl Print, bench: &mut Bench) -> io::Result<()> {
    let ran = run(bench, &[0x44, 0x68], Draw::Closed, 10);
    println!(rt; "units of 44 68: {}", ran.units)?;
    println!(rt; "what stops it: {}", answers::stop_number(ran.stop))?;
    println!(rt; "bytes left: {}", ring::count(ran.fifo))
}

// The bytes that a run of one unit says are lacking, 0 where it does not wait.
fn lacking(bench: &mut Bench, bytes: &[u8], draw: Draw) -> u32 {
    answers::stop_lacking(run(bench, bytes, draw, 1).stop)
}

// "one for an empty ring with no draw open, then the rest of the unit, for an XF load first of its five-byte head, then of its words; in an
// open draw, the rest of the vertex"
pub fn waiting(rt: &impl Print, bench: &mut Bench) -> io::Result<()> {
    let n = lacking(bench, &[], Draw::Closed);
    println!(rt; "bytes lacking in an empty ring: {n}")?;
    let n = lacking(bench, &[0x08], Draw::Closed);
    println!(rt; "bytes lacking after 08: {n}")?;
    let n = lacking(bench, &[0x61, 0x41], Draw::Closed);
    println!(rt; "bytes lacking after 61 41: {n}")?;
    let n = lacking(bench, &[0x10, 0x00], Draw::Closed);
    println!(rt; "bytes lacking after 10 00: {n}")?;
    let n = lacking(bench, &[0x10, 0x00, 0x03, 0x00, 0x00], Draw::Closed);
    println!(rt; "bytes lacking after 10 00 03 00 00: {n}")?;
    let draw = Draw::Open {
        primitive: 2,
        format: 0,
        left: 3,
    };
    let n = lacking(bench, &[], draw);
    println!(rt; "bytes lacking in an empty ring, a draw of 12 bytes a vertex open: {n}")
}

// A run that its limit ends does not wait, although the ring is empty.
pub fn stopping(rt: &impl Print, bench: &mut Bench) -> io::Result<()> {
    let ran = run(bench, &[0x00], Draw::Closed, 1);
    println!(rt;
        "what stops a run of limit 1 over 00: {}",
        answers::stop_number(ran.stop)
    )?;
    println!(rt; "bytes left: {}", ring::count(ran.fifo))
}
