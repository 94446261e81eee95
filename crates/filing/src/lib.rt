// Recordings (document 02, L1) on the state's words: read and written, whole or the head alone.
// Answers are the C interface's numbers, 0 or the refusal's; what a call tells beside is written through what C lends.
#![tactic(auto)]

ghost use Rattle.std.specs.Prelude.{◌≡◌};
ghost use Rattle.words.specs.State.{fifo_of, words_by};
ghost use Rattle.recording.specs.Faults.{stream_limit, head_place, rest_fault};
ghost use Rattle.filing.specs.Calls.{LoadsFile, LoadsHead, PutsFile, PutsHead};

use machine::Registers;
use recording::HEAD_LENGTH;

// Stores registers in the state's words; the window and the control word stay.
fn save(state: &mut [u32; 327], registers: Registers)
    ensures { state.new ≡ words_by (fifo_of state.old) registers.cp registers.bp registers.draw }
{
    let Registers { cp, bp, draw } = registers;
    saving::save_registers(state, &cp, &bp, draw);
}

// Reads a whole file: the registers, with no draw open, the XF words, where the stream stands and how long it is.
pub fn read(state: &mut [u32; 327], file: &[u8], xf: &mut [u32], stream: &mut [u32; 2]) -> u32
    ensures { LoadsFile stream_limit state.old file.now xf.old stream.old
        result state.new xf.new stream.new }
{
    match recordreader::read(file, xf) {
        Ok(read) => {
            save(state, read.registers);
            *stream = [read.at, read.length];
            0
        }
        Err(reason) => u32::from(reason),
    }
}

// Reads the first 18,016 bytes of a file so, and tells how long its stream is.
pub fn read_head(state: &mut [u32; 327], head: &[u8], xf: &mut [u32], length: &mut u32) -> u32
    ensures { LoadsHead stream_limit state.old head.now xf.old length.old
        result state.new xf.new length.new }
{
    match recordreader::read_head(head, xf) {
        Ok(read) => {
            save(state, read.registers);
            *length = read.stream;
            0
        }
        Err(reason) => u32::from(reason),
    }
}

// Whether so many bytes behind a head are the stream that it tells.
pub fn check_rest(length: u32, rest: usize) -> u32
    ensures { result ≡ rest_fault length rest }
{
    encoding::answer_number(recording::check_rest(length, rest))
}

// The byte of the first fault of a head, 18,016 where it has none.
pub fn find_fault(head: &[u8]) -> u32
    ensures { result ≡ head_place stream_limit head.now }
{
    recording::search(head).map_or(HEAD_LENGTH as u32, |fault| fault.place)
}

// Writes a whole file of the state's registers, and tells its bytes.
pub fn write(
    state: &[u32; 327],
    xf: &[u32],
    stream: &[u8],
    output: &mut [u8],
    written: &mut u32,
) -> u32
    ensures { PutsFile stream_limit state.now xf.now stream.now output.old
        written.old result output.new written.new }
{
    let cp = words::cp(state);
    let bp = words::bp(state);
    answers::tell_bytes(recordwriter::write(&cp, &bp, xf, stream, output), written)
}

// Writes what stands before a stream of so many bytes, and tells its bytes.
pub fn write_head(
    state: &[u32; 327],
    xf: &[u32],
    stream: usize,
    output: &mut [u8],
    written: &mut u32,
) -> u32
    ensures { PutsHead stream_limit state.now xf.now stream output.old written.old
        result output.new written.new }
{
    let cp = words::cp(state);
    let bp = words::bp(state);
    answers::tell_bytes(
        recordwriter::write_head(&cp, &bp, xf, stream, output),
        written,
    )
}
