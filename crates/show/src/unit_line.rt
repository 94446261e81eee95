// What the line of a unit says behind its offset.
use crate::count;
use crate::count::Count;
use command::Command;
use std::fmt;

// A command, and the memory address that an indexed load reports.
#[derive(Clone, Copy)]
pub struct Unit {
    pub command: Command,
    pub memory: u32,
}

fn words(number: u8) -> Count {
    Count::new(u64::from(number), "word", "words")
}

// The name of a primitive; 1 has none.
// By number: the stream's eight primitives are numbers in `Command`, and 1 among them is one without a name.
fn primitive_name(primitive: u8) -> &'static str {
    match primitive {
        0 => "quads",
        2 => "triangles",
        3 => "triangle strip",
        4 => "triangle fan",
        5 => "lines",
        6 => "line strip",
        7 => "points",
        _ => "primitive 1",
    }
}

impl fmt::Display for Unit {
    fn fmt<W: fmt::Write>(&self, f: &mut fmt::Formatter<W>) -> fmt::Result {
        match self.command {
            Command::NoOperation => write!(f, "no operation"),
            Command::InvalidateCache => write!(f, "discard vertex cache"),
            Command::Metrics => write!(f, "metrics"),
            Command::LoadCp { address, number } => write!(f, "cp load {address:02X} {number:08X}"),
            Command::LoadXf {
                words: number,
                address,
            } => write!(f, "xf load {} at {address:04X}", words(number)),
            Command::LoadIndexed {
                array,
                index,
                words: number,
                address,
            } => write!(
                f,
                "indexed load {} at {address:04X}, array {array:X} index {index:04X}, memory {:08X}",
                words(number),
                self.memory
            ),
            Command::CallList { address, size } => {
                write!(f, "call list {address:08X} size {size:08X}")
            }
            Command::LoadBp { register, number } => {
                write!(f, "bp load {register:02X} {number:06X}")
            }
            Command::DrawHead {
                primitive,
                format,
                count,
            } => write!(
                f,
                "draw {} format {format:X}, {}",
                primitive_name(primitive),
                count::vertices(u64::from(count))
            ),
            Command::Vertex => write!(f, "vertex"),
        }
    }
}
