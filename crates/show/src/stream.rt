// The stream: fed to the bench in pieces, of what length the input gives them, and taken unit by unit, each of which is told.
ghost use Rattle.std.specs.Prelude.{◌≡◌};
ghost use Rattle.show.specs.Stream.{left_of};

use crate::bench::{Bench, RING_LENGTH};
use crate::count::Count;
use crate::ending::Ending;
use crate::input::{Input, PIECE_LENGTH};
use crate::tally::Tally;
use crate::unit_line::Unit;
use crate::{bp, count};
use command::{Command, StepAnswer};
use recording::{Fault, HEAD_LENGTH};
use refusal::Reason;
use std::io;
use std::io::Read;

// Where a position is absent in a raw stream: most often its registers were loaded before it begins.
const HINT: &str =
    "hint: was it cut from a running game? It starts from fresh registers here, without the loads before the cut";

// A stream that is shown: what the last taking answered, which is a unit that was done only where its line could not be written; how long
// the stream is told to be, as that of a recording is; and the bytes read of it and behind it. The bench is lent, for it is large.
#[derive(Drop)]
pub struct Stream<'a, P> {
    rt: &'a P,
    bench: &'a mut Bench,
    tally: Tally,
    last: StepAnswer,
    told: Option<u32>,
    seen: u64,
}

impl<'a, P: Print> Stream<'a, P> {
    // A stream of which nothing is read yet. An empty ring waits for a byte.
    pub fn new(rt: &'a P, bench: &'a mut Bench, told: Option<u32>) -> Stream<'a, P> {
        Stream {
            rt,
            bench,
            tally: Tally::default(),
            last: StepAnswer::Waiting(1),
            told,
            seen: 0,
        }
    }

    // The no-operations that are not told yet, if there are any; each has one byte.
    fn tell_idle(&self) -> io::Result<()> {
        let idle = self.tally.idle;
        if idle == 0 {
            return Ok(());
        }
        let first = self.tally.bytes.wrapping_sub(idle);
        let count = Count::new(idle, "no operation", "no operations");
        println!(self.rt; "{first:08X}  {count}")
    }

    // Counts a unit that was done and tells it: a no-operation with those that follow it, and a vertex where it was its draw's last. Where
    // the line of no-operations cannot be written, the unit's own is tried all the same.
    fn tell(&mut self, unit: Unit, length: u32) -> io::Result<()> {
        let before = self.tally.bytes;
        match unit.command {
            Command::NoOperation => {
                self.tally.count(unit.command, length);
                Ok(())
            }
            Command::Vertex => {
                self.tally.count(unit.command, length);
                if self.bench.vertices_left().is_some() {
                    return Ok(());
                }
                let first = self.tally.first;
                let taken = count::vertices(self.tally.taken);
                println!(self.rt;
                    "{first:08X}  {taken} of {}",
                    count::bytes(u64::from(length))
                )
            }
            _ => {
                let idle = self.tell_idle();
                self.tally.count(unit.command, length);
                let own = println!(self.rt; "{before:08X}  {unit}");
                idle?;
                own
            }
        }
    }

    // Takes units until one waits or is refused, or its line cannot be written. The ring holds 65,535 bytes, and a unit has one at least.
    fn take_units(&mut self) {
        for _ in 0..RING_LENGTH {
            self.last = self.bench.take();
            let StepAnswer::Done {
                command,
                memory,
                length,
            } = self.last
            else {
                break;
            };
            if self.tell(Unit { command, memory }, length).is_err() {
                break;
            }
        }
    }

    // How many bytes the stream still has, of so many that were read.
    fn left(&self, read: usize) -> usize
        ensures { result ≡ left_of self.now.told self.now.seen read }
    {
        match self.told {
            Some(told) => read.min(u64::from(told).saturating_sub(self.seen) as usize),
            None => read,
        }
    }

    // Takes what a piece of the input has of the stream. After a refusal its bytes are only counted.
    fn take_piece(&mut self, piece: &[u8]) {
        let count = self.left(piece.len());
        self.seen = self.seen.wrapping_add(piece.len() as u64);
        if let StepAnswer::Refused(_) = self.last {
            return;
        }
        match self.bench.feed(&piece[..count]) {
            Ok(()) => self.take_units(),
            Err(reason) => self.last = StepAnswer::Refused(reason),
        }
    }

    // Whether the input is read on: for a raw stream until a unit is refused, for a recording until there is more than its stream, and for
    // neither where a unit's line could not be written.
    fn reads_on(&self) -> bool {
        if let StepAnswer::Done { .. } = self.last {
            return false;
        }
        match self.told {
            Some(told) => self.seen <= u64::from(told),
            None => !matches!(self.last, StepAnswer::Refused(_)),
        }
    }

    // Takes the first piece and reads the others. Nothing says that an input ends, so the loop counts its turns, up to a number that no
    // input uses up.
    pub fn read<R: Read>(&mut self, first: &[u8], input: &mut Input<R>) {
        self.take_piece(first);
        let mut piece = [0u8; PIECE_LENGTH];
        for _ in 0..u64::MAX {
            if input.has_ended() || !self.reads_on() {
                break;
            }
            let count = input.read(&mut piece);
            self.take_piece(&piece[..count]);
        }
    }

    // The lines behind the last unit's: what is open and what was not taken, the BP registers that changed, and what was counted. Each is
    // tried, whether or not those before it could be written.
    fn tell_rest(&self) {
        let _ = self.tell_idle();
        if let Some(left) = self.bench.vertices_left() {
            let first = self.tally.first;
            let taken = count::vertices(self.tally.taken);
            let _ = println!(self.rt; "{first:08X}  {taken} taken, {left} left");
        }
        if !self.bench.is_whole() {
            let bytes = self.tally.bytes;
            let _ = println!(self.rt; "{bytes:08X}  not taken:{}", self.bench.pending());
        }
        bp::tell(self.rt, &self.bench.registers.bp);
        let _ = println!(self.rt; "{}", self.tally);
    }

    // What stands behind a recording's head has to be as long as the head tells. It is bad at the byte of the file where it ends, or ought
    // to: at what comes first.
    // `record` has the same lines: the two programs share what the library has, and no crate of their own.
    fn check_rest(&self) -> Result<(), Fault> {
        let Some(told) = self.told else {
            return Ok(());
        };
        let end = u32::try_from(self.seen).unwrap_or(told).min(told);
        let place = (HEAD_LENGTH as u32).wrapping_add(end);
        recording::check_rest(told, self.seen as usize).map_err(|reason| Fault { place, reason })
    }

    // How its units ended.
    fn units_ending(&self) -> Ending {
        if self.bench.is_whole() {
            return Ending::Whole;
        }
        let byte = self.tally.bytes;
        match self.last {
            StepAnswer::Done { .. } => Ending::Unwritten { byte },
            StepAnswer::Waiting(lacking) => Ending::Waiting(lacking),
            StepAnswer::Refused(reason) => Ending::Refused { reason, byte },
        }
    }

    // How it ended. What is wrong behind a recording's head goes before what its units did, and a read that failed before both.
    fn ending(&self, has_failed: bool) -> Ending {
        if has_failed {
            return Ending::Unreadable;
        }
        match self.check_rest() {
            Ok(()) => self.units_ending(),
            Err(fault) => Ending::BadFile(fault),
        }
    }

    // The lines behind the last unit's, of which the last one says how it ended; `has_failed` where a read did. Each is tried here too.
    pub fn finish(&self, has_failed: bool) {
        self.tell_rest();
        let ending = self.ending(has_failed);
        if self.told.is_none() && ending.is_refused(Reason::PositionAbsent) {
            let _ = println!(self.rt; "{HINT}");
        }
        let _ = println!(self.rt; "{ending}");
    }
}
