// Refusals, units, commands and vertex formats as words of 32 bits: what crosses to C and Rust beside the state.
#![tactic(auto)]

mod attributes;
mod commands;

ghost use Rattle.std.specs.Prelude.{◌≡◌};
ghost use Rattle.refusal.specs.Outcome.{outcome};

pub use attributes::{attribute_words, descriptor, raw_list};
pub use commands::{command, unit_words};
use refusal::Reason;

// The number of an answer: 0 where it was accepted, or the refusal's.
pub fn answer_number(answer: Result<(), Reason>) -> u32
    ensures { result ≡ outcome answer }
{
    match answer {
        Ok(()) => 0,
        Err(reason) => u32::from(reason),
    }
}
