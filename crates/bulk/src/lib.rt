// Many units at once, off the front of a plain slice of bytes.
// The sizes of vertices go beside the registers that make them, and each contract asks `Known` of the two: a struct of both would have an
// invariant over what it holds by `&mut`, and that has no proof rule.
#![tactic(auto)]

mod draws;
mod loads;
mod straight;

ghost use Rattle.std.specs.Prelude.{◌≡◌};
ghost use Rattle.command.specs.declared.Draw.TheVariants.{Closed};

use command::Draw;
use plain::Passed;
pub use straight::take_straight;

// How many units were taken, the place after them, the draw that they leave, and the bytes of a vertex of it, 0 where there is none: so
// `size_told` and `vertex_bytes` tell it, which the promise of `take_straight` names.
// `running::Stretch` has a cursor for the place: no function takes either of the two, so one type over both would be no shorter.
#[derive(Clone, Copy)]
pub struct Many {
    pub units: u32,
    pub at: usize,
    pub draw: Draw,
    pub size: u32,
}

// Units that leave no draw open.
impl From<Passed> for Many {
    ghost from_gives = { λ step many. ((many.units ≡ step.units) × ((many.at ≡ step.at) × (many.draw ≡ Closed))) × (many.size ≡ 0) };

    fn from(step: Passed) -> Many {
        Many {
            units: step.units,
            at: step.at,
            draw: Draw::Closed,
            size: 0,
        }
    }
}
