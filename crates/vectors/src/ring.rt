// The ring: its count, and how far it can be filled.
use crate::bench::fifo_to;
use crate::number;
use fifo::Fifo;
use std::io;

// The bytes that wait in a ring.
pub fn count(fifo: Fifo) -> u32 {
    number::of(fifo::count(fifo))
}

// "Start 1000, end 1100, read 10FE, write 1003 (hex): count 5."
pub fn starred_count(rt: &impl Print) -> io::Result<()> {
    let fifo = fifo_to(0x1100, 0x10FE, 0x1003);
    println!(rt; "count with read 10FE, write 1003: {}", count(fifo))
}

// "255 bytes fill a ring of 256, the 256th gives 11."
pub fn filled(rt: &impl Print) -> io::Result<()> {
    let mut fifo = fifo_to(0x1100, 0x1080, 0x1080);
    let mut ring = [0u8; 256];
    let answer = encoding::answer_number(queue::feed(&mut fifo, &mut ring, &[0x48; 255]));
    println!(rt; "255 bytes into a ring of 256: {answer}")?;
    println!(rt; "count of that ring: {}", count(fifo))?;
    let answer = encoding::answer_number(queue::feed(&mut fifo, &mut ring, b"H"));
    println!(rt; "the 256th byte: {answer}")?;
    println!(rt; "count after it: {}", count(fifo))
}

// A register, while no draw is open.
fn register(fifo: Fifo, offset: u16) -> u32 {
    number::of(registers::read_register(fifo, false, offset))
}

// Document 02, L9: the count of a ring of a mebibyte in its two halves, and a ring of 32 bytes more.
pub fn mebibyte(rt: &impl Print) -> io::Result<()> {
    let fifo = fifo_to(0x101000, 0xFE000, 0x10345);
    println!(rt; "count in a ring of 100000 (hex): {:08X}", count(fifo))?;
    println!(rt; "030 of it: {:08X}", register(fifo, 0x030))?;
    println!(rt; "032 of it: {:08X}", register(fifo, 0x032))?;
    let larger = fifo_to(0x101020, 0xFE000, 0x10345);
    let answer = encoding::answer_number(fifo::count(larger).map(|_| ()));
    println!(rt; "refusal of a ring of 100020 (hex): {answer}")
}
