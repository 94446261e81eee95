// Answers as numbers.
use refusal::Reason;

// Stands before the number of a refusal where a number may be answered too.
const REFUSED: u32 = 0x1000_0000;

// The number that is answered, or that of the refusal behind its mark.
pub fn of<T: Into<u32>>(answer: Result<T, Reason>) -> u32 {
    match answer {
        Ok(number) => number.into(),
        Err(reason) => REFUSED | u32::from(reason),
    }
}
