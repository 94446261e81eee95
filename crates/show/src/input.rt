// The input: its first bytes, by four of which a recording is told from a raw stream, and the pieces behind them.
ghost use Rattle.std.specs.Prelude.{◌≤◌, length};

use recording::{FIRST_BYTES, HEAD_LENGTH};
use std::io::Read;

// How long a piece is at most.
pub const PIECE_LENGTH: usize = 4096;

// Why an input gives no byte more.
#[derive(Clone, Copy, PartialEq, Eq)]
pub enum End {
    Reached,
    Failed,
}

// An input, which is not read again once it has ended.
#[derive(Drop)]
pub struct Input<R> {
    reader: R,
    end: Option<End>,
}

// Whether the first bytes of an input are those of a recording.
pub fn is_recording(first: &[u8]) -> bool {
    first.starts_with(&FIRST_BYTES)
}

impl<R: Read> Input<R> {
    pub fn new(reader: R) -> Input<R> {
        Input { reader, end: None }
    }

    pub fn has_failed(&self) -> bool {
        self.end == Some(End::Failed)
    }

    pub fn has_ended(&self) -> bool {
        self.end.is_some()
    }

    // Reads once, and tells how many bytes there are. No byte, or a read that fails, ends the input.
    pub fn read(&mut self, buffer: &mut [u8]) -> usize
        ensures { result ≤ length buffer.new }
    {
        if self.has_ended() {
            return 0;
        }
        match self.reader.read(buffer) {
            Ok(0) => self.end = Some(End::Reached),
            Ok(count) => return count,
            Err(_) => self.end = Some(End::Failed),
        }
        0
    }

    // Reads a piece, until its first bytes tell whether it is a recording, or the input ends. A read gives a byte at least, so that four
    // are enough.
    pub fn begin(&mut self, head: &mut [u8; HEAD_LENGTH]) -> usize
        ensures { result ≤ length head.new }
    {
        let mut count = 0;
        for _ in 0..FIRST_BYTES.len() {
            if self.has_ended() || count >= FIRST_BYTES.len() {
                break;
            }
            if !FIRST_BYTES.starts_with(&head[..count]) {
                break;
            }
            count += self.read(&mut head[count..PIECE_LENGTH]);
        }
        count
    }

    // Reads until a buffer is full or the input ends, and tells how many bytes there are.
    pub fn fill(&mut self, buffer: &mut [u8]) -> usize
        ensures { result ≤ length buffer.new }
    {
        let mut count = 0;
        for _ in 0..buffer.len() {
            if self.has_ended() || count >= buffer.len() {
                break;
            }
            count += self.read(&mut buffer[count..]);
        }
        count
    }
}
