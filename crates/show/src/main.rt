// Shows a stream of commands, from standard input, as text: a line for each unit, but one for a run of no-operations and one for the
// vertices of a draw, each behind the byte offset where it begins; then what was counted and how it ended. Offsets, and what a command
// carries, are hexadecimal, counts are decimal. The input is a recording, with the registers to start from, where it begins as one does,
// and else a raw stream, which starts from fresh registers.
#![tactic(auto)]

mod bench;
mod bp;
mod count;
mod ending;
mod input;
mod stream;
mod tally;
mod unit_line;

use bench::Bench;
use ending::Ending;
use input::Input;
use recording::HEAD_LENGTH;
use std::io::Read;
use stream::Stream;

// Shows a stream to its end, of which a first piece is read.
fn show_stream<R: Read>(
    rt: &impl Print,
    input: &mut Input<R>,
    first: &[u8],
    bench: &mut Bench,
    told: Option<u32>,
) {
    let mut stream = Stream::new(rt, bench, told);
    stream.read(first, input);
    stream.finish(input.has_failed());
}

// Shows a raw stream. That a first line cannot be written is ignored, here and below: it is the units' lines that end the reading.
fn show_raw<R: Read>(rt: &impl Print, input: &mut Input<R>, first: &[u8], bench: &mut Bench) {
    let _ = println!(rt; "start: fresh registers, no draw open");
    show_stream(rt, input, first, bench, None);
}

// Shows a recording whose head is read; one that is bad shows no units.
fn show_recording<R: Read>(rt: &impl Print, input: &mut Input<R>, head: &[u8], bench: &mut Bench) {
    match bench.load(head) {
        Ok(told) => {
            let length = count::bytes(u64::from(told));
            let _ = println!(rt;
                "start: the recording's registers, no draw open; stream of {length}"
            );
            show_stream(rt, input, &[], bench, Some(told));
        }
        Err(reason) => {
            let _ = println!(rt; "{}", Ending::of_head(head, reason));
        }
    }
}

// The first bytes of the input say which of the two it is. The bench stands here, and is lent to what shows it.
fn show(rt: &impl Print, reader: impl Read + Drop) {
    let mut head = [0u8; HEAD_LENGTH];
    let mut bench = Bench::fresh();
    let mut input = Input::new(reader);
    let count = input.begin(&mut head);
    if !input::is_recording(&head[..count]) {
        show_raw(rt, &mut input, &head[..count], &mut bench);
        return;
    }
    let length = count + input.fill(&mut head[count..]);
    if input.has_failed() {
        let _ = println!(rt; "{}", Ending::Unreadable);
        return;
    }
    show_recording(rt, &mut input, &head[..length], &mut bench);
}

// Shows what is on standard input. Where a unit's line cannot be written, nothing more is read or taken, but each line of the end is tried.
fn main(rt: HostRuntime) {
    show(&rt, rt.stdin());
}
