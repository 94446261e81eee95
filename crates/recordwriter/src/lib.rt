// A recording's file written, whole or its head alone.
#![tactic(auto)]

ghost use Rattle.std.specs.Prelude.{◌≡◌, ◌+◌, ◌*◌, ◌≤◌, ◌<◌, ◌^◌, length};
ghost use Rattle.octets.specs.BigEndian.{bytes_of};
ghost use Rattle.command.specs.Look.{xf_count};
ghost use Rattle.recording.specs.Format.{recording_of, section, stream_at};
ghost use Rattle.recording.specs.Faults.{stream_limit};
ghost use Rattle.recording.specs.Answers.{meaning_of_verdict, content_refusal};
ghost use Rattle.recordwriter.specs.Writing.{WritesHead, WritesFile};
ghost use Rattle.recordwriter.specs.Putting.{over, HeadOver, PutsHead};

use command::Draw;
use places::XF_LENGTH;
use recording::{CP_COUNT_AT, HEAD_LENGTH, STREAM_COUNT_AT, STREAM_LIMIT, XF_COUNT_AT};
use refusal::Reason;

// The bytes where the sections of CP and of XF begin, and the count of the stream.
const CP_COUNT_BYTE: usize = 4 * CP_COUNT_AT as usize;

const XF_COUNT_BYTE: usize = 4 * XF_COUNT_AT as usize;

const STREAM_COUNT_BYTE: usize = 4 * STREAM_COUNT_AT as usize;

// Puts a number of four bytes at a place of the output.
fn put_number(out: &mut [u8], at: usize, number: u32)
    requires { at + 4 ≤ length out.old }
    ensures { out.new ≡ over out.old at (bytes_of 4 number) }
{
    octets::write_words(&[number], &mut out[at..]);
}

// Puts numbers after their count, from a place of the output on.
fn put_section(out: &mut [u8], at: usize, numbers: &[u32])
    requires { (at + 4 + 4 * length numbers.now ≤ length out.old) × (length numbers.now < 2 ^ 32) }
    ensures { out.new ≡ over out.old at (section numbers.now) }
{
    put_number(out, at, numbers.len() as u32);
    octets::write_words(numbers, &mut out[at + 4..]);
}

// What stands before a stream of so many bytes.
#[derive(Clone, Copy)]
struct Head<'a> {
    cp: &'a [u32; 60],
    bp: &'a [u32; 256],
    xf: &'a [u32],
    stream: usize,
}

impl<'a> Head<'a> {
    // The first of 1, 2 and 20 that applies to it.
    #[tactic(auto, unfolding(recording::specs::Answers::content_refusal))]
    fn test(self) -> Result<(), Reason>
        ensures { meaning_of_verdict result
            ≡ content_refusal stream_limit self.entry.cp.now self.entry.bp.now (length self.entry.xf.now) self.entry.stream }
    {
        let Head { cp, bp, xf, stream } = self;
        if !machine::registers_fit(cp, bp, Draw::Closed) {
            return Err(Reason::InvalidState);
        }
        if xf.len() != XF_LENGTH {
            return Err(Reason::XfMemoryLength);
        }
        if stream > STREAM_LIMIT as usize {
            return Err(Reason::WrongCount);
        }
        Ok(())
    }

    // Puts it to the front of an output that has room for it.
    fn put(self, out: &mut [u8])
        requires { (stream_at ≤ length out.old) × ((length self.xf.now ≡ xf_count) × (self.stream ≤ stream_limit)) }
        ensures { HeadOver self.entry.cp.now self.entry.bp.now self.entry.xf.now self.entry.stream out.old out.new }
    {
        let Head { cp, bp, xf, stream } = self;
        put_section(out, 0, bp);
        put_section(out, CP_COUNT_BYTE, cp);
        put_section(out, XF_COUNT_BYTE, xf);
        put_number(out, STREAM_COUNT_BYTE, stream as u32);
    }

    // Writes it to the front of an output that has room for so many bytes, or says why not and writes nothing.
    fn write(self, size: usize, out: &mut [u8]) -> Result<(), Reason>
        requires { stream_at ≤ size }
        ensures { PutsHead self.entry.cp.now self.entry.bp.now self.entry.xf.now self.entry.stream size out.old result out.new }
    {
        self.test()?;
        if out.len() < size {
            return Err(Reason::OutputShort);
        }
        self.put(out);
        Ok(())
    }
}

// Writes what stands before a stream of so many bytes to the front of the output, or says why not and writes nothing.
#[tactic(auto, unfolding(recording::specs::Answers::head_record_refusal))]
pub fn write_head(
    cp: &[u32; 60],
    bp: &[u32; 256],
    xf: &[u32],
    stream: usize,
    out: &mut [u8],
) -> Result<u32, Reason>
    ensures { WritesHead cp.now bp.now xf.now stream out.old result out.new }
{
    let head = Head { cp, bp, xf, stream };
    head.write(HEAD_LENGTH, out)?;
    Ok(HEAD_LENGTH as u32)
}

// Writes a whole file to the front of the output, or says why not and writes nothing.
#[tactic(auto, unfolding(recording::specs::Answers::record_refusal))]
pub fn write(
    cp: &[u32; 60],
    bp: &[u32; 256],
    xf: &[u32],
    stream: &[u8],
    out: &mut [u8],
) -> Result<u32, Reason>
    ensures { WritesFile (recording_of cp.now bp.now xf.now stream.now)
        out.old result out.new }
{
    let size = HEAD_LENGTH + stream.len();
    let head = Head {
        cp,
        bp,
        xf,
        stream: stream.len(),
    };
    head.write(size, out)?;
    out[HEAD_LENGTH..size].copy_from_slice(stream);
    Ok(size as u32)
}
