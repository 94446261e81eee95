// The bench that a stream is fed to: the fifo and its ring, the registers, the XF words and the vertex buffer.
ghost use Rattle.std.specs.Prelude.{◌≡◌};
ghost use Rattle.fifo.specs.Window.{Valid, count_of, gap_of};
ghost use Rattle.unit.specs.Answers.{meaning};
ghost use Rattle.processor.specs.Step.{step_found};
ghost use Rattle.queue.specs.Feeding.{FedBy};
ghost use Rattle.recordreader.specs.Reading.{meaning_of_head};
ghost use Rattle.show.specs.Bench.{state_in, fresh_bench, taken, load_answer, loaded, left_in, whole_by};

use command::{Draw, LARGEST_VERTEX, StepAnswer};
use fifo::Fifo;
use machine::Registers;
use places::XF_LENGTH;
use refusal::Reason;
use std::fmt;

pub const RING_LENGTH: usize = 65536;

#[derive(Drop)]
pub struct Bench {
    fifo: Fifo,
    pub registers: Registers,
    ring: [u8; RING_LENGTH],
    xf: [u32; XF_LENGTH],
    vertex: [u8; LARGEST_VERTEX],
}

// The first of the bytes that wait in the ring, at most eight.
#[derive(Clone, Copy)]
pub struct Pending<'a> {
    bench: &'a Bench,
}

impl Bench {
    // The fresh bench, with a window from 0 on and an empty ring, that may be read from in multi-buffer mode.
    #[tactic(auto, unfolding(crate::specs::Bench::fresh_bench))]
    pub fn fresh() -> Bench
        ensures { result ≡ fresh_bench }
    {
        let fresh = machine::fresh();
        let mut fifo = fresh.fifo;
        fifo.window.end = RING_LENGTH as u32;
        fifo.control = 1;
        Bench {
            fifo,
            registers: fresh.registers,
            ring: [0; RING_LENGTH],
            xf: [0; XF_LENGTH],
            vertex: [0; LARGEST_VERTEX],
        }
    }

    // Loads the registers and XF words of a recording's head, and tells how long its stream is; or why not, and then nothing changes.
    #[tactic(auto, unfolding(crate::specs::Bench::load_answer, crate::specs::Bench::loaded))]
    pub fn load(&mut self, head: &[u8]) -> Result<u32, Reason>
        ensures answer { meaning_of_head result ≡ load_answer self.old head.now }
        ensures bench { self.new ≡ loaded self.old head.now }
    {
        let read = recordreader::read_head(head, &mut self.xf)?;
        self.registers = read.registers;
        Ok(read.stream)
    }

    // Feeds bytes to the ring; a refused feed changes nothing.
    pub fn feed(&mut self, bytes: &[u8]) -> Result<(), Reason>
        ensures fed { FedBy self.old.fifo self.old.ring bytes.now result self.new.fifo self.new.ring }
        ensures others { self.new ≡ record self.old { fifo = self.new.fifo; ring = self.new.ring } }
    {
        queue::feed(&mut self.fifo, &mut self.ring, bytes)
    }

    // Takes the next unit; where it waits or is refused, nothing changes.
    #[tactic(auto, unfolding(crate::specs::Bench::taken))]
    pub fn take(&mut self) -> StepAnswer
        ensures answer { meaning result ≡ step_found self.old.ring (state_in self.old) }
        ensures bench { self.new ≡ taken self.old }
    {
        let taken = processor::take(
            self.fifo,
            &mut self.registers.cp,
            &mut self.registers.bp,
            self.registers.draw,
            &self.ring,
            &mut self.xf,
            &mut self.vertex,
        );
        self.fifo = taken.fifo;
        self.registers.draw = taken.draw;
        taken.answer
    }

    // The vertices that an open draw has left.
    pub fn vertices_left(&self) -> Option<u16>
        ensures { result ≡ left_in self.now.registers.draw }
    {
        match self.registers.draw {
            Draw::Closed => None,
            Draw::Open { left, .. } => Some(left),
        }
    }

    // Whether no byte waits and no draw is open.
    #[tactic(auto, using(fifo::proofs::WindowLaws::gap_count))]
    pub fn is_whole(&self) -> bool
        ensures gap { result ≡ whole_by self.now (gap_of self.now.fifo.window) }
        ensures count { Valid self.now.fifo.window
            → result ≡ whole_by self.now (count_of self.now.fifo.window) }
    {
        self.vertices_left().is_none() && fifo::gap(self.fifo.window) == 0
    }

    pub fn pending(&self) -> Pending<'_> {
        Pending { bench: self }
    }
}

impl fmt::Display for Pending<'_> {
    fn fmt<W: fmt::Write>(&self, f: &mut fmt::Formatter<W>) -> fmt::Result {
        let window = self.bench.fifo.window;
        let (end, start) = self.bench.ring.split_at(window.read as usize % RING_LENGTH);
        let count = fifo::gap(window) as usize;
        for byte in start.iter().chain(end).take(count.min(8)) {
            write!(f, " {byte:02X}")?;
        }
        Ok(())
    }
}
