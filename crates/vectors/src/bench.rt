// A bench with a ring of 256 bytes at 1000 (hex): the fifo and the ring, the registers, the XF words and the vertex buffer. That of the
// program `show` has a ring of another length and shares no more than the call of `take`: one type for both would be no shorter.
use crate::ring;
use command::{Draw, LARGEST_VERTEX, StepAnswer};
use fifo::{Fifo, Window};
use machine::{Machine, Registers};
use places::XF_LENGTH;
use running::Ran;
use std::fmt;

#[derive(Drop)]
pub struct Bench {
    pub fifo: Fifo,
    pub registers: Registers,
    ring: [u8; 256],
    xf: [u32; XF_LENGTH],
    vertex: [u8; LARGEST_VERTEX],
}

// A fifo whose window begins at 1000 (hex), with its end and its pointers.
pub fn fifo_to(end: u32, read: u32, write: u32) -> Fifo {
    let window = Window {
        start: 0x1000,
        end,
        read,
        write,
        ..Window::default()
    };
    fifo::with_window(fifo::fresh(), window)
}

impl Bench {
    // A bench that is handed nothing yet.
    pub fn fresh() -> Bench {
        let Machine { fifo, registers } = machine::fresh();
        Bench {
            fifo,
            registers,
            ring: [0; 256],
            xf: [0; XF_LENGTH],
            vertex: [0; LARGEST_VERTEX],
        }
    }

    // Makes it fresh again and such that it may be read from, and feeds these bytes to its ring from a place on.
    // In place: a fresh bench that is handed back takes as much of the stack again.
    pub fn feed(&mut self, at: u32, bytes: &[u8]) {
        self.fifo = fifo_to(0x1100, at, at);
        self.fifo.control = 1;
        self.registers = machine::fresh().registers;
        self.ring.fill(0);
        self.xf.fill(0);
        self.vertex.fill(0);
        let _ = queue::feed(&mut self.fifo, &mut self.ring, bytes);
    }

    // Takes the next unit.
    pub fn take(&mut self) -> StepAnswer {
        let taken = processor::take(
            self.fifo,
            &mut self.registers.cp,
            &mut self.registers.bp,
            self.registers.draw,
            &self.ring,
            &mut self.xf,
            &mut self.vertex,
        );
        self.fifo = taken.fifo;
        self.registers.draw = taken.draw;
        taken.answer
    }

    // Runs so many units at most.
    pub fn run(&mut self, limit: u32) -> Ran {
        let ran = running::run(
            self.fifo,
            &mut self.registers.cp,
            &mut self.registers.bp,
            self.registers.draw,
            &self.ring,
            &mut self.xf,
            &mut self.vertex,
            limit,
        );
        self.fifo = ran.fifo;
        self.registers.draw = ran.draw;
        ran
    }

    // The vertices left of an open draw, 0 where none is open.
    fn vertices(&self) -> u16 {
        match self.registers.draw {
            Draw::Closed => 0,
            Draw::Open { left, .. } => left,
        }
    }
}

// What is left: bytes that wait, vertices of the open draw, and the registers and XF words that the units here may change.
impl fmt::Display for Bench {
    fn fmt<W: fmt::Write>(&self, f: &mut fmt::Formatter<W>) -> fmt::Result {
        let Registers { cp, bp, .. } = &self.registers;
        let bytes = ring::count(self.fifo);
        let vertices = self.vertices();
        write!(f, "bytes left {bytes}, vertices left {vertices}")?;
        write!(f, ", cp AC {:08X}, BC {:08X}", cp[40], cp[56])?;
        write!(f, ", bp 41 {:08X}, FE {:08X}", bp[0x41], bp[0xFE])?;
        write!(f, ", xf 1000 {:08X}", self.xf[0x1000])?;
        for address in [0x1001, 0x1002, 0x1003, 0x1004, 0x1057] {
            let word = self.xf[address];
            write!(f, ", {address:04X} {word:08X}")?;
        }
        Ok(())
    }
}
