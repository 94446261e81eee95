// A recording's file read, whole or its head alone; it is searched whole before the first XF word is stored.
#![tactic(auto)]

ghost use Rattle.std.specs.Prelude.{◌≡◌, ◌+◌, ◌*◌, ◌≤◌, length};
ghost use Rattle.octets.specs.BigEndian.{words_at};
ghost use Rattle.command.specs.Look.{xf_count};
ghost use Rattle.recording.specs.Format.{stream_at, content_of};
ghost use Rattle.recording.specs.Answers.{registers_in};
ghost use Rattle.recordreader.specs.Reading.{SearchesHead, ReadsHead, ReadsFile};

use command::Draw;
use machine::Registers;
use places::XF_LENGTH;
use recording::{CP_COUNT_AT, HEAD_LENGTH, STREAM_COUNT_AT, XF_COUNT_AT};
use refusal::Reason;

// The registers of a head, and how long the stream is, as its count tells it.
#[derive(Clone, Copy)]
pub struct HeadRead {
    pub registers: Registers,
    pub stream: u32,
}

// The registers of a file, where its stream stands in it, and how long that is.
#[derive(Clone, Copy)]
pub struct FileRead {
    pub registers: Registers,
    pub at: u32,
    pub length: u32,
}

// The bytes where the BP registers, the CP registers and the XF words begin, each behind its count, and the count of the stream.
const BP_BYTE: u32 = 4;

const CP_BYTE: u32 = 4 * (CP_COUNT_AT + 1);

const XF_BYTE: u32 = 4 * (XF_COUNT_AT + 1);

const STREAM_COUNT_BYTE: u32 = 4 * STREAM_COUNT_AT;

// Fills `out` with the numbers from a place of the file on.
// The file and a place: a slice from there on would ask that the file is as long, which `octets::word_at` does not.
fn fill(out: &mut [u32], file: &[u8], at: u32)
    requires { at + 4 * length out.old ≤ stream_at }
    ensures { out.new ≡ words_at file.now at (length out.old) }
{
    // By index: of a slice written through `iter_mut` a proof knows the length alone.
    for i in 0..out.len() {
        out[i] = octets::word_at(file, at + 4 * i as u32);
    }
}

// The registers and the XF words of a file in which nothing is wrong; no draw is open.
#[tactic(auto, unfolding(recording::specs::Format::content_of))]
fn load(file: &[u8], xf: &mut [u32]) -> Registers
    requires { length xf.old ≡ xf_count }
    ensures { (result ≡ registers_in file.now) × (xf.new ≡ (content_of file.now).xf) }
{
    let mut bp = [0u32; 256];
    fill(&mut bp, file, BP_BYTE);
    let mut cp = [0u32; 60];
    fill(&mut cp, file, CP_BYTE);
    fill(xf, file, XF_BYTE);
    Registers {
        cp,
        bp,
        draw: Draw::Closed,
    }
}

// How long a head tells its stream, or why it is refused with so many XF words lent.
fn stream_length(head: &[u8], xf: usize) -> Result<u32, Reason>
    ensures { SearchesHead head.now xf result }
{
    if xf != XF_LENGTH {
        return Err(Reason::XfMemoryLength);
    }
    if let Some(fault) = recording::search(head) {
        return Err(fault.reason);
    }
    Ok(octets::word_at(head, STREAM_COUNT_BYTE))
}

// Reads the numbers of a file, its first 18,016 bytes; what stands behind them is not looked at.
#[tactic(auto, unfolding(recording::specs::Answers::head_refusal))]
pub fn read_head(head: &[u8], xf: &mut [u32]) -> Result<HeadRead, Reason>
    ensures { ReadsHead head.now xf.old result xf.new }
{
    let stream = stream_length(head, xf.len())?;
    let registers = load(head, xf);
    Ok(HeadRead { registers, stream })
}

// Reads a whole file, and tells where its stream stands.
#[tactic(auto, unfolding(recording::specs::Answers::read_refusal, recording::specs::Faults::file_fault))]
pub fn read(file: &[u8], xf: &mut [u32]) -> Result<FileRead, Reason>
    ensures { ReadsFile file.now xf.old result xf.new }
{
    let length = stream_length(file, xf.len())?;
    recording::check_rest(length, file.len() - HEAD_LENGTH)?;
    let registers = load(file, xf);
    Ok(FileRead {
        registers,
        at: HEAD_LENGTH as u32,
        length,
    })
}
