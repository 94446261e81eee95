// Why nothing was written, or no good: the last line on standard error tells it, and the program's caller goes by that.
use recording::Fault;
use refusal::Reason;
use std::fmt;

// The output took no more, or its reader closed it; a read failed; standard input was not as long the second time as the first, or cannot
// be read twice; what was to be recorded is a recording; the argument has no meaning; the recording to write was refused; one that was read
// is bad, at this byte.
#[derive(Clone, Copy)]
pub enum Failure {
    Unwritable,
    Closed,
    Unreadable,
    Changed,
    ReadOnce,
    IsRecording,
    Unknown,
    Refused(Reason),
    Bad(Fault),
}

impl fmt::Display for Failure {
    fn fmt<W: fmt::Write>(&self, f: &mut fmt::Formatter<W>) -> fmt::Result {
        match *self {
            Failure::Unwritable => write!(f, "the output cannot be written"),
            Failure::Closed => write!(f, "the output is closed"),
            Failure::Unreadable => write!(f, "the input cannot be read"),
            Failure::Changed => write!(f, "the input changed while it was read"),
            Failure::ReadOnce => write!(f, "the input cannot be read twice"),
            Failure::IsRecording => write!(f, "the input is a recording"),
            Failure::Unknown => write!(f, "there is no such argument"),
            // Of a recording to write no other count can be wrong: the program lends what is asked for.
            Failure::Refused(Reason::WrongCount) => {
                let number = u32::from(Reason::WrongCount);
                write!(f, "refusal {number}: a stream longer than 1,048,575 bytes")
            }
            Failure::Refused(reason) => write!(f, "refusal {}: {reason}", u32::from(reason)),
            Failure::Bad(fault) => write!(f, "{fault}"),
        }
    }
}
