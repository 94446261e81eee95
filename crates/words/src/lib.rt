// The state as 327 words of 32 bits that the caller keeps: read from them. The C interface has the state so, by place, with a flag for an
// open draw.
#![tactic(auto)]

ghost use Rattle.std.specs.Prelude.{◌≡◌, cond};
ghost use Rattle.words.specs.State.{window_of, left_of, draw_of, cp_of, bp_of};
ghost use Rattle.words.specs.Front.{draw_narrow, front_of};

use command::Draw;
use fifo::{Fifo, Window};

// The places of the draw, words 7 to 10, of the CP registers, words 11 to 70, and of the BP registers, words 71 to 326.
pub const DRAW_PLACE: usize = 7;

pub const CP_PLACE: usize = 11;

pub const BP_PLACE: usize = 71;

// Words 0 to 10 in the types of the fifo and the draw.
#[derive(Clone, Copy)]
pub struct Front {
    pub fifo: Fifo,
    pub draw: Draw,
}

// Words 0 to 5.
// A function and no From: neither the words nor `Window` is a type of this crate.
pub fn window(words: &[u32; 327]) -> Window
    ensures { result ≡ window_of words.now }
{
    Window {
        start: words[0],
        end: words[1],
        high: words[2],
        low: words[3],
        write: words[4],
        read: words[5],
    }
}

// The vertices left in a draw that is open; a flag above 1 or a count above 16 bits reads as none left.
fn left(flag: u32, count: u32) -> u16
    ensures { result ≡ left_of flag count }
{
    if flag == 1 {
        u16::try_from(count).unwrap_or(0)
    } else {
        0
    }
}

// The draw of words 7 to 10; none where an open draw's primitive or format is too wide for its type.
#[tactic(auto, unfolding(crate::specs::State::draw_of))]
fn draw(words: &[u32; 327]) -> Option<Draw>
    ensures { result ≡ cond (draw_narrow words.now) (Some (draw_of words.now)) None }
{
    if words[7] == 0 {
        return Some(Draw::Closed);
    }
    Some(Draw::Open {
        primitive: u8::try_from(words[8]).ok()?,
        format: u8::try_from(words[9]).ok()?,
        left: left(words[7], words[10]),
    })
}

// Words 0 to 10; none where they are too wide for the types.
#[tactic(auto, unfolding(crate::specs::Front::front_of, crate::specs::Front::fits, crate::specs::State::fifo_of))]
pub fn read_front(words: &[u32; 327]) -> Option<Front>
    ensures { result ≡ front_of words.now }
{
    let control = u16::try_from(words[6]).ok()?;
    let fifo = Fifo {
        window: window(words),
        control,
    };
    let draw = draw(words)?;
    Some(Front { fifo, draw })
}

// Words 11 to 70.
// `cp` and `bp` are a copy of one line each: one function of the length under both would be a third.
#[tactic(auto, unfolding(crate::specs::State::cp_of))]
pub fn cp(words: &[u32; 327]) -> [u32; 60]
    ensures { result ≡ cp_of words.now }
{
    let mut cp = [0u32; 60];
    cp.copy_from_slice(&words[CP_PLACE..BP_PLACE]);
    cp
}

// Words 71 to 326.
#[tactic(auto, unfolding(crate::specs::State::bp_of))]
pub fn bp(words: &[u32; 327]) -> [u32; 256]
    ensures { result ≡ bp_of words.now }
{
    let mut bp = [0u32; 256];
    bp.copy_from_slice(&words[BP_PLACE..BP_PLACE + 256]);
    bp
}
