// Writes a recording of a raw stream, or the raw stream of a recording, to standard output. What it is told by the first letter of its
// argument:
//
//   none        a recording of the raw stream on standard input, with fresh registers
//   registers   the same with the registers and XF words of the recording on descriptor 3
//   stream      the stream of the recording on standard input
//
// A stream may be longer than any buffer here, and a recording tells its length before it. So standard input is gone over twice, to count
// and to copy, where it is a file; where it is not, as a pipe, its stream is held in memory, with a byte more where it is too long. Nothing
// is written before all that is read was found to be in order. How it ended is told by a line on standard error.
#![tactic(auto)]

mod failure;
mod input;
mod pass;
mod start;

use failure::Failure;
use pass::Again;
use recording::HEAD_LENGTH;
use start::Start;
use std::io::{Read, Seek};
use std::rt::{Env, Files};

// What the program is told to do.
#[derive(Clone, Copy)]
enum Task {
    RecordFresh,
    RecordByOther,
    WriteStream,
}

impl Task {
    // The task by the first letter of the first argument.
    fn read(rt: &impl Env) -> Result<Task, Failure> {
        let mut word = [0u8; 16];
        let _ = rt.arg(1, &mut word);
        match word[0] {
            0 => Ok(Task::RecordFresh),
            b'r' => Ok(Task::RecordByOther),
            b's' => Ok(Task::WriteStream),
            _ => Err(Failure::Unknown),
        }
    }
}

// Refuses an input that is a recording, which begins with 256, the count of its BP registers: no raw stream gets past its third byte with
// these. It is left where it stood.
fn refuse_recording<I: Read + Seek>(again: &mut Again<I>) -> Result<(), Failure> {
    let mut first = [0u8; 4];
    let is_read = again.input.read_exact(&mut first).is_ok();
    let _ = again.go_back();
    if is_read && first == recording::FIRST_BYTES {
        return Err(Failure::IsRecording);
    }
    Ok(())
}

// Writes a recording: what stands before the stream, and the stream, of which so many bytes were counted.
fn write_recording<I: Read + Seek>(
    rt: &impl Print,
    again: &mut Again<I>,
    start: &Start,
    count: usize,
) -> Result<(), Failure> {
    let mut head = [0u8; HEAD_LENGTH];
    start
        .write_head(count, &mut head)
        .map_err(Failure::Refused)?;
    pass::copy(rt, again, &head, count)
}

// Records the raw stream on standard input. Where it is no file, it is held in memory.
fn record(rt: &(impl Files + AllocGlobal + Input + Print), start: &Start) -> Result<(), Failure> {
    let most = recording::STREAM_LIMIT as usize;
    if let Some(mut again) = input::open_stdin(rt) {
        refuse_recording(&mut again)?;
        let count = pass::count(&mut rt.reader(), most)?;
        return write_recording(rt, &mut again, start, count);
    }
    let (mut again, count) = input::hold(rt.alloc(), &mut rt.reader(), most + 1);
    refuse_recording(&mut again)?;
    write_recording(rt, &mut again, start, count?)
}

// Records it with the registers and XF words of another recording, which is read to its end and closed before.
fn record_by_other(
    rt: &(impl Files + AllocGlobal + Input + Print),
    start: &mut Start,
) -> Result<(), Failure> {
    let mut other = input::open_other(rt).ok_or(Failure::Unreadable)?;
    start.read(rt.alloc(), &mut other)?;
    drop(other);
    record(rt, start)
}

// Writes the bytes behind the head of a recording, which were counted, where they are as many as it tells.
fn write_rest<I: Read + Seek>(
    rt: &impl Print,
    again: &mut Again<I>,
    told: u32,
    rest: usize,
) -> Result<(), Failure> {
    start::check_rest(told, rest).map_err(Failure::Bad)?;
    pass::copy(rt, again, &[], rest)
}

// Writes the stream of the recording on standard input.
fn write_stream(
    rt: &(impl Files + AllocGlobal + Input + Print),
    start: &mut Start,
) -> Result<(), Failure> {
    let told = start.read_head(rt.alloc(), &mut rt.reader())?;
    if let Some(mut again) = input::open_stdin(rt) {
        let rest = pass::count(&mut rt.reader(), told as usize)?;
        return write_rest(rt, &mut again, told, rest);
    }
    let (mut again, rest) = input::hold(rt.alloc(), &mut rt.reader(), told as usize + 1);
    write_rest(rt, &mut again, told, rest?)
}

fn run(rt: &(impl Files + Env + AllocGlobal + Input + Print)) -> Result<(), Failure> {
    let task = Task::read(rt)?;
    // Made here once, and lent: it and a head are as large as all else on the stack.
    let mut start = Start::fresh();
    match task {
        Task::RecordFresh => record(rt, &start),
        Task::RecordByOther => record_by_other(rt, &mut start),
        Task::WriteStream => write_stream(rt, &mut start),
    }
}

// Does it, and tells how it ended. Where that cannot be written, there is no place left to tell it.
fn main(rt: HostRuntime) {
    let _ = match run(&rt) {
        Ok(()) => eprintln!(rt; "end: written"),
        Err(failure) => eprintln!(rt; "end: {failure}"),
    };
}
