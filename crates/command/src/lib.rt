// A command of the stream: its fields as they stood there, before any masking; loads and calls, recognised from their first bytes.
#![tactic(auto)]

mod units;

pub use layout::LARGEST_VERTEX;
use refusal::Reason;
pub use units::{look_bp, look_call, look_cp, look_indexed, look_xf, unit};

#[derive(Clone, Copy)]
pub enum Command {
    NoOperation,
    InvalidateCache,
    Metrics,
    LoadCp {
        address: u8,
        number: u32,
    },
    // An XF load has its number of words instead of the length.
    LoadXf {
        words: u8,
        address: u16,
    },
    LoadIndexed {
        array: u8,
        index: u16,
        words: u8,
        address: u16,
    },
    CallList {
        address: u32,
        size: u32,
    },
    LoadBp {
        register: u8,
        number: u32,
    },
    DrawHead {
        primitive: u8,
        format: u8,
        count: u16,
    },
    Vertex,
}

// "An open draw or none": what an open one has left.
// No Option of a struct: both states have names, by which every promise speaks of them.
#[derive(Clone, Copy)]
pub enum Draw {
    Closed,
    Open {
        primitive: u8,
        format: u8,
        left: u16,
    },
}

// "step answer enum whose done case holds the command enum and whose refused case holds the reason enum": what the stream goes on with, and
// what a look and a taking answer.
#[derive(Clone, Copy)]
pub enum StepAnswer {
    // A whole unit, told by a look and done by a taking: its command, the memory address that an indexed load reports (0 for every other
    // command), and its bytes.
    Done {
        command: Command,
        memory: u32,
        length: u32,
    },
    // That many bytes are lacking.
    Waiting(u32),
    Refused(Reason),
}
