// What was counted so far.
use crate::count;
use crate::count::Count;
use command::Command;
use std::fmt;

// Units, draw heads, vertices and bytes taken; the no-operations at the end of these, which are not told yet, each of one byte; the
// vertices taken of the last draw, and the offset of its first.
#[derive(Clone, Copy, Default)]
pub struct Tally {
    units: u64,
    draws: u64,
    vertices: u64,
    pub bytes: u64,
    pub idle: u64,
    pub taken: u64,
    pub first: u64,
}

impl Tally {
    // One unit more.
    pub fn count(&mut self, command: Command, length: u32) {
        self.units = self.units.wrapping_add(1);
        self.bytes = self.bytes.wrapping_add(u64::from(length));
        self.idle = match command {
            Command::NoOperation => self.idle.wrapping_add(1),
            _ => 0,
        };
        match command {
            Command::DrawHead { .. } => {
                self.draws = self.draws.wrapping_add(1);
                self.taken = 0;
                self.first = self.bytes;
            }
            Command::Vertex => {
                self.vertices = self.vertices.wrapping_add(1);
                self.taken = self.taken.wrapping_add(1);
            }
            _ => {}
        }
    }
}

impl fmt::Display for Tally {
    fn fmt<W: fmt::Write>(&self, f: &mut fmt::Formatter<W>) -> fmt::Result {
        write!(
            f,
            "{}, {}, {}, {}",
            Count::new(self.units, "unit", "units"),
            Count::new(self.draws, "draw", "draws"),
            count::vertices(self.vertices),
            count::bytes(self.bytes)
        )
    }
}
