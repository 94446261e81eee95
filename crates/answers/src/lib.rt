// What a look, a taking, a run and a writer answer, as numbers.
// Numbers, and what is told beside them put into places that are lent, as C has it.
#![tactic(auto)]

ghost use Rattle.std.specs.Prelude.{◌≡◌};
ghost use Rattle.unit.specs.Answers.{meaning};
ghost use Rattle.running.specs.Run.{meaning_of_stop};
ghost use Rattle.encoding.specs.Told.{first_of, second_of, Tells};
ghost use Rattle.answers.specs.Counting.{CountsBytes};

use command::StepAnswer;
use refusal::Reason;
use running::Stop;

// The number of what a look or a taking answers; where there is a unit its words, and where it waits the bytes lacking.
pub fn tell_answer(answer: StepAnswer, unit: &mut [u32; 6], lacking: &mut u32) -> u32
    ensures { Tells (meaning answer) unit.old lacking.old result unit.new lacking.new }
{
    match answer {
        StepAnswer::Done {
            command,
            memory,
            length,
        } => {
            *unit = encoding::unit_words(command, memory, length);
            0
        }
        StepAnswer::Waiting(bytes) => {
            *lacking = bytes;
            255
        }
        StepAnswer::Refused(reason) => u32::from(reason),
    }
}

// The number of why a run stopped.
pub fn stop_number(stop: Stop) -> u32
    ensures { result ≡ first_of (meaning_of_stop stop) }
{
    match stop {
        Stop::Limit => 0,
        Stop::Waiting(_) => 255,
        Stop::Refused(reason) => u32::from(reason),
    }
}

// The bytes lacking, 0 unless a run waits.
pub fn stop_lacking(stop: Stop) -> u32
    ensures { result ≡ second_of (meaning_of_stop stop) }
{
    match stop {
        Stop::Waiting(lacking) => lacking,
        Stop::Limit | Stop::Refused(_) => 0,
    }
}

// The number of a writer's answer, and where it is 0 the bytes written.
pub fn tell_bytes(answer: Result<u32, Reason>, written: &mut u32) -> u32
    ensures { CountsBytes answer written.old result written.new }
{
    match answer {
        Ok(count) => {
            *written = count;
            0
        }
        Err(reason) => u32::from(reason),
    }
}
