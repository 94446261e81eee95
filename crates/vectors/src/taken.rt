// Units that are fed to a ring and taken off it, from the fresh state on: what is told of the last, and what they leave.
use crate::bench::Bench;
use command::{Command, StepAnswer};
use std::io;

// Feeds the bytes 16 bytes before the ring's end, and takes units, as many as stand in front of the last one, and then that.
fn take(bench: &mut Bench, bytes: &[u8], before: u32) -> StepAnswer {
    bench.feed(0x10F0, bytes);
    for _ in 0..before {
        bench.take();
    }
    bench.take()
}

// 0 where the unit was done, 255 where it waits, or the number of its refusal.
fn number(answer: StepAnswer) -> u32 {
    match answer {
        StepAnswer::Done { .. } => 0,
        StepAnswer::Waiting(_) => 255,
        StepAnswer::Refused(reason) => u32::from(reason),
    }
}

// How many words a load is of, 0 where none was done.
fn words(answer: StepAnswer) -> u8 {
    match answer {
        StepAnswer::Done {
            command: Command::LoadXf { words, .. } | Command::LoadIndexed { words, .. },
            ..
        } => words,
        _ => 0,
    }
}

// The memory address that is reported, 0 where no unit was done.
fn memory(answer: StepAnswer) -> u32 {
    match answer {
        StepAnswer::Done { memory, .. } => memory,
        _ => 0,
    }
}

// "10 00 F3 10 00 takes 4 words; address 1057 takes one word, two give 8."
pub fn xf_loads(rt: &impl Print, bench: &mut Bench) -> io::Result<()> {
    let answer = take(
        bench,
        &[
            0x10, 0x00, 0xF3, 0x10, 0x00, 0, 0, 0, 0x11, 0, 0, 0, 0x22, 0, 0, 0, 0x33, 0, 0, 0,
            0x44,
        ],
        0,
    );
    println!(rt; "words of 10 00 F3 10 00: {}", words(answer))?;
    println!(rt; "after it: {bench}")?;
    let answer = take(bench, &[0x10, 0x00, 0x00, 0x10, 0x57, 0, 0, 0, 0x55], 0);
    println!(rt; "words of 10 00 00 10 57: {}", words(answer))?;
    println!(rt; "after it: {bench}")?;
    let answer = take(bench, &[0x10, 0x00, 0x01, 0x10, 0x57], 0);
    println!(rt; "refusal of 10 00 01 10 57: {}", number(answer))?;
    println!(rt; "after it: {bench}")
}

// "20 00 03 B0 00 with base 1000, stride 40 (hex) reports 10C0, 12 words."
pub fn indexed_load(rt: &impl Print, bench: &mut Bench) -> io::Result<()> {
    let answer = take(
        bench,
        &[
            0x08, 0xAC, 0, 0, 0x10, 0x00, 0x08, 0xBC, 0, 0, 0, 0x40, 0x20, 0x00, 0x03, 0xB0, 0x00,
        ],
        2,
    );
    println!(rt;
        "address of 20 00 03 B0 00, base 1000, stride 40: {:08X}",
        memory(answer)
    )?;
    println!(rt; "words of 20 00 03 B0 00: {}", words(answer))?;
    println!(rt; "after it: {bench}")
}

// "FE loads 0000F0 then 00003C from FFFFFF: 000030"; "register 123450, mask 00000F, number 0000A5: 123455".
pub fn bp_loads(rt: &impl Print, bench: &mut Bench) -> io::Result<()> {
    let answer = take(bench, &[0x61, 0xFE, 0, 0, 0xF0, 0x61, 0xFE, 0, 0, 0x3C], 1);
    println!(rt;
        "answer to 61 FE 00 00 F0 61 FE 00 00 3C: {}",
        number(answer)
    )?;
    println!(rt; "after it: {bench}")?;
    let answer = take(
        bench,
        &[
            0x61, 0x41, 0x12, 0x34, 0x50, 0x61, 0xFE, 0, 0, 0x0F, 0x61, 0x41, 0, 0, 0xA5,
        ],
        2,
    );
    println!(rt;
        "answer to 61 41 12 34 50 61 FE 00 00 0F 61 41 00 00 A5: {}",
        number(answer)
    )?;
    println!(rt; "after it: {bench}")
}

// "90 00 00, position present, leaves no draw open": the position is of two bytes. A head of one vertex, and then its vertex.
pub fn draws(rt: &impl Print, bench: &mut Bench) -> io::Result<()> {
    let answer = take(bench, &[0x08, 0x50, 0, 0, 0x02, 0, 0x90, 0x00, 0x00], 1);
    println!(rt; "answer to 90 00 00: {}", number(answer))?;
    println!(rt; "after it: {bench}")?;
    let vertex = [0x08, 0x50, 0, 0, 0x02, 0, 0x90, 0x00, 0x01, 7, 8];
    let answer = take(bench, &vertex, 1);
    println!(rt; "answer to 90 00 01: {}", number(answer))?;
    println!(rt; "after it: {bench}")?;
    let answer = take(bench, &vertex, 2);
    println!(rt; "answer to its vertex: {}", number(answer))?;
    println!(rt; "after it: {bench}")
}
