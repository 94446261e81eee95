// CP loads: they may change the size of a vertex.
ghost use Rattle.std.specs.Prelude.{◌≤◌, length};
ghost use Rattle.bulk.specs.Inner.{Known, MovesCp, Executes};

use plain::Passed;

// The opcode of a CP load.
const CP: u8 = 0x08;

// The first CP addresses of the VCD, which the VAT follows, and of the arrays behind them: only loads between them change a vertex.
const VCD: u8 = 0x50;

const ARRAYS: u8 = 0xA0;

// Executes a CP load, and forgets the sizes of vertices where it is of the VCD or a VAT; false where it is refused.
// false where it is refused: the loop stops there, and why is told by the look that comes next.
fn execute_cp(cp: &mut [u32; 60], sizes: &mut [Option<u8>; 8], address: u8, number: u32) -> bool
    requires { Known cp.old sizes.old }
    ensures { Executes address number cp.old sizes.old result cp.new sizes.new }
{
    if !places::cp_accepted(address) {
        return false;
    }
    effect::load_cp(cp, address, number);
    if ARRAYS <= address {
        return true;
    }
    if address < VCD {
        return true;
    }
    *sizes = [None; 8];
    true
}

// CP loads that follow each other, at most so many. `loading` says why this loop and its two are not one.
pub(crate) fn take_cp(
    bytes: &[u8],
    from: usize,
    cp: &mut [u32; 60],
    sizes: &mut [Option<u8>; 8],
    most: u32,
) -> Passed
    requires { (from ≤ length bytes.now) × Known cp.old sizes.old }
    ensures { MovesCp bytes.now from cp.old most result.units result.at cp.new sizes.new }
{
    let mut at = from;
    for units in 0..most {
        if bytes.len() - at < 6 || bytes[at] != CP {
            return Passed { units, at };
        }
        let number = octets::word(bytes[at + 2], bytes[at + 3], bytes[at + 4], bytes[at + 5]);
        if !execute_cp(cp, sizes, bytes[at + 1], number) {
            return Passed { units, at };
        }
        at += 6;
    }
    Passed { units: most, at }
}
