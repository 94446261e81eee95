// Patches: the bytes that they are written in, alone and merged.
use crate::number;
use refusal::Reason;
use std::{fmt, io};

#[derive(Drop)]
struct Patch {
    masks: [u32; 256],
    numbers: [u32; 256],
}

// Bytes in hexadecimal, each behind a blank.
#[derive(Clone, Copy)]
struct Hex<'a>(&'a [u8]);

impl Patch {
    // Changes nothing.
    fn empty() -> Patch {
        Patch {
            masks: [0; 256],
            numbers: [0; 256],
        }
    }

    // Changes register 41 (hex) alone.
    fn of_41(mask: u32, number: u32) -> Patch {
        let mut patch = Patch::empty();
        patch.masks[0x41] = mask;
        patch.numbers[0x41] = number;
        patch
    }

    // Becomes what another patch and then a third one do.
    fn merge(&mut self, first: &Patch, second: &Patch) -> Result<(), Reason> {
        merging::merge(
            &first.masks,
            &first.numbers,
            &second.masks,
            &second.numbers,
            &mut self.masks,
            &mut self.numbers,
        )
    }

    // Writes its bytes, which are those of two loads.
    fn write(&self, rt: &impl Print, name: &str) -> io::Result<()> {
        let mut out = [0u8; 10];
        let size = number::of(patchwriter::write(&self.masks, &self.numbers, &mut out));
        println!(rt; "{name}: {size}")?;
        println!(rt; "its mask:{}", Hex(&out[..5]))?;
        println!(rt; "its number:{}", Hex(&out[5..]))
    }
}

impl fmt::Display for Hex<'_> {
    fn fmt<W: fmt::Write>(&self, f: &mut fmt::Formatter<W>) -> fmt::Result {
        let bytes = self.0;
        for byte in bytes {
            write!(f, " {byte:02X}")?;
        }
        Ok(())
    }
}

// "Mask 00000F and number 000005 at 41, alone", and merged with mask 0000F0 and number 000030.
pub fn written(rt: &impl Print) -> io::Result<()> {
    let first = Patch::of_41(0x0F, 0x05);
    first.write(rt, "bytes of F, 5 at 41")?;
    let mut both = Patch::empty();
    let answer = encoding::answer_number(both.merge(&first, &Patch::of_41(0xF0, 0x30)));
    println!(rt; "merged with F0, 30: {answer}")?;
    both.write(rt, "bytes of the merge")
}
