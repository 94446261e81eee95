// How a stream ended: the last line.
use crate::count;
use recording::{Fault, HEAD_LENGTH};
use refusal::Reason;
use std::fmt;

// All was read; bytes are lacking for the next unit; a unit is refused, or a recording is bad, at this byte; a unit's line could not be
// written, while bytes were left or a draw was open behind it, at this byte; a read failed.
#[derive(Clone, Copy)]
pub enum Ending {
    Whole,
    Waiting(u32),
    Refused { reason: Reason, byte: u64 },
    BadFile(Fault),
    Unwritten { byte: u64 },
    Unreadable,
}

impl Ending {
    // Of a recording whose head is refused for a reason: it is bad at the head's first fault.
    pub fn of_head(head: &[u8], reason: Reason) -> Ending {
        let place = HEAD_LENGTH as u32;
        Ending::BadFile(recording::search(head).unwrap_or(Fault { place, reason }))
    }

    pub fn is_refused(&self, by: Reason) -> bool {
        matches!(self, Ending::Refused { reason, .. } if *reason == by)
    }
}

impl fmt::Display for Ending {
    fn fmt<W: fmt::Write>(&self, f: &mut fmt::Formatter<W>) -> fmt::Result {
        match *self {
            Ending::Whole => write!(f, "end: all read"),
            Ending::Waiting(lacking) => {
                let lacking = count::bytes(u64::from(lacking));
                write!(f, "end: waiting for {lacking} more")
            }
            Ending::Refused { reason, byte } => {
                let number = u32::from(reason);
                write!(f, "end: refusal {number} at byte {byte}: {reason}")
            }
            Ending::BadFile(fault) => write!(f, "end: {fault}"),
            // The unit was done, so that the number is 0, that of no refusal. It is seen only where an output takes lines again.
            Ending::Unwritten { byte } => write!(f, "end: refusal 0 at byte {byte}"),
            Ending::Unreadable => write!(f, "end: the input cannot be read"),
        }
    }
}
