// The BP registers that do not hold what they hold in the fresh state, eight to a line.
use std::fmt;

const LINE_LENGTH: usize = 8;

// A line of them: those behind so many others.
#[derive(Clone, Copy)]
struct Line<'a> {
    bp: &'a [u32; 256],
    fresh: &'a [u32; 256],
    skipped: usize,
}

impl fmt::Display for Line<'_> {
    fn fmt<W: fmt::Write>(&self, f: &mut fmt::Formatter<W>) -> fmt::Result {
        write!(f, "bp not fresh:")?;
        let Line { bp, fresh, skipped } = *self;
        let registers = bp.iter().zip(fresh).enumerate();
        let changed = registers.filter(|(_, (number, fresh))| number != fresh);
        for (register, (number, _)) in changed.skip(skipped).take(LINE_LENGTH) {
            write!(f, " {register:02X}={number:06X}")?;
        }
        Ok(())
    }
}

// Tells them line by line; each is tried, whether or not those before it could be written.
pub fn tell(rt: &impl Print, bp: &[u32; 256]) {
    let fresh = &machine::fresh().registers.bp;
    let count = bp
        .iter()
        .zip(fresh)
        .filter(|(number, fresh)| number != fresh)
        .count();
    for skipped in (0..count).step_by(LINE_LENGTH) {
        let _ = println!(rt; "{}", Line { bp, fresh, skipped });
    }
}
