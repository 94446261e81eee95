// Passes over an input from where it stands, in pieces: its bytes are counted, or copied to standard output.
use crate::failure::Failure;
use std::io;
use std::io::{ErrorKind, Read, Seek, SeekFrom, Write};

// How long a piece is at most.
const PIECE_LENGTH: usize = 4096;

// An input for the second pass, and where the first began in it; none where it has no places to go back to, as a pipe.
#[derive(Drop)]
pub struct Again<I> {
    pub input: I,
    start: Option<u64>,
}

impl<I: Seek> Again<I> {
    // An input that stands where the first pass begins.
    pub fn new(mut input: I) -> Again<I> {
        let start = input.seek(SeekFrom::Current(0)).ok();
        Again { input, start }
    }

    // Goes back there, or fails where there is no such place.
    pub fn go_back(&mut self) -> Result<(), Failure> {
        let start = self.start.ok_or(Failure::ReadOnce)?;
        match self.input.seek(SeekFrom::Start(start)) {
            Ok(place) if place == start => Ok(()),
            _ => Err(Failure::ReadOnce),
        }
    }
}

// Why an output takes no more: its reader has closed it, or it cannot be written.
// No From: an error of a read is another failure, Unreadable.
fn unwritten(error: io::Error) -> Failure {
    if error.kind() == ErrorKind::BrokenPipe {
        Failure::Closed
    } else {
        Failure::Unwritable
    }
}

// Goes on to the end of the input, or until there were more bytes than `most`, writes them to an output, and counts them. No byte ends the
// input. Nothing says that it does end, so the loop counts its turns, up to a number that no input uses up.
fn go_over(input: &mut impl Read, output: &mut impl Write, most: usize) -> Result<usize, Failure> {
    let mut piece = [0u8; PIECE_LENGTH];
    let mut count: usize = 0;
    for _ in 0..u64::MAX {
        if count > most {
            break;
        }
        let n = input.read(&mut piece).map_err(|_| Failure::Unreadable)?;
        if n == 0 {
            break;
        }
        output.write_all(&piece[..n]).map_err(unwritten)?;
        count = count.wrapping_add(n);
    }
    Ok(count)
}

// Counts the bytes that are left of an input; where there are more than `most`, some of them.
pub fn count(input: &mut impl Read, most: usize) -> Result<usize, Failure> {
    go_over(input, &mut io::sink(), most)
}

// Writes a head and, behind it, the bytes that were counted. Where there are more of them now, more are written, so that a recording which
// tells the first length does not pass for whole.
pub fn copy<I: Read + Seek>(
    rt: &impl Print,
    again: &mut Again<I>,
    head: &[u8],
    count: usize,
) -> Result<(), Failure> {
    again.go_back()?;
    let mut output = io::writer(rt);
    output.write_all(head).map_err(unwritten)?;
    let copied = go_over(&mut again.input, &mut output, count)?;
    if copied == count {
        Ok(())
    } else {
        Err(Failure::Changed)
    }
}
