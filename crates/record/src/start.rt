// What a recording starts from: the registers and the XF words, fresh ones or those of another recording.
ghost use Rattle.std.specs.Prelude.{◌≡◌};
ghost use Rattle.record.specs.Start.{fresh_start, LoadsHead, PutsHead, ChecksRest, FaultOf};

use crate::failure::Failure;
use crate::pass;
use machine::Registers;
use places::XF_LENGTH;
use recording::{Fault, HEAD_LENGTH};
use recordreader::HeadRead;
use refusal::Reason;
use std::alloc::Global;
use std::io::Read;

#[derive(Drop)]
pub struct Start {
    registers: Registers,
    xf: [u32; XF_LENGTH],
}

// So many bytes behind a head have to be as many as it tells. They are bad where they end, or ought to: at what comes first.
// `show` has the same lines: the two programs share what the library has, and no crate of their own.
pub fn check_rest(told: u32, rest: usize) -> Result<(), Fault>
    ensures { ChecksRest told rest result }
{
    let end = rest.min(told as usize) as u32;
    let place = (HEAD_LENGTH as u32).wrapping_add(end);
    recording::check_rest(told, rest).map_err(|reason| Fault { place, reason })
}

// A head that is refused for a reason: it is bad at its first fault.
fn fault_of(head: &[u8], reason: Reason) -> Fault
    ensures { FaultOf head.now reason result }
{
    let place = HEAD_LENGTH as u32;
    recording::search(head).unwrap_or(Fault { place, reason })
}

impl Start {
    pub fn fresh() -> Start
        ensures { result ≡ fresh_start }
    {
        Start {
            registers: machine::fresh().registers,
            xf: [0; XF_LENGTH],
        }
    }

    // Becomes what stands in a head, and tells how long its stream is; where the head is refused, it stays as it was.
    fn load(&mut self, head: &[u8]) -> Result<u32, Reason>
        ensures { LoadsHead self.old head.now result self.new }
    {
        let HeadRead { registers, stream } = recordreader::read_head(head, &mut self.xf)?;
        self.registers = registers;
        Ok(stream)
    }

    // Reads what stands before the stream of a recording, as far as it is there, and tells how long its stream is.
    pub fn read_head(&mut self, alloc: Global, input: &mut impl Read) -> Result<u32, Failure> {
        let mut head = Vec::new(alloc);
        let mut part = input.by_ref().take(HEAD_LENGTH as u64);
        part.read_to_end(&mut head)
            .map_err(|_| Failure::Unreadable)?;
        self.load(&head)
            .map_err(|reason| Failure::Bad(fault_of(&head, reason)))
    }

    // Reads a recording from an input to its end.
    pub fn read(&mut self, alloc: Global, input: &mut impl Read) -> Result<(), Failure> {
        let told = self.read_head(alloc, input)?;
        let rest = pass::count(input, told as usize)?;
        check_rest(told, rest).map_err(Failure::Bad)
    }

    // Writes what stands before a stream of so many bytes over an output that is as long, or says why not and leaves the output.
    pub fn write_head(&self, stream: usize, out: &mut [u8; HEAD_LENGTH]) -> Result<(), Reason>
        ensures { PutsHead self.now stream out.old result out.new }
    {
        let Registers { cp, bp, .. } = &self.registers;
        recordwriter::write_head(cp, bp, &self.xf, stream, out)?;
        Ok(())
    }
}
