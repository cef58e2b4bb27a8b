//! A line of hexadecimal text as the bytes of a frame.
//!
//! A byte is written as a pair of digits, side by side. Spaces, tabs, carriage returns, `-` and `:` may stand between
//! pairs, and `#` begins a comment. Places in a line are in bytes and count from 0; people are shown columns, from 1
//! on.
ghost use Rattle.std.specs.Prelude.{◌≡◌, IfErr, IfOk, alloc_error};
ghost use Rattle.inspect.specs.Text.{Explains, bytes_in, digit_of, pair_of, step_of};
ghost use Rattle.inspect.specs.declared.line.LineError.TheVariants as bad;

use std::alloc::{AllocError, AllocFailed, Global};
use thiserror::Error;

/// Why a line stands for no bytes: the first thing that is wrong in it. The field is the place.
#[derive(Clone, Copy, PartialEq, Eq, Debug, Drop, Error)]
pub enum Malformed {
    /// A pair should begin here, and no hexadecimal digit stands here.
    #[error("column {} holds no hexadecimal digit", .0.saturating_add(1))]
    NoDigit(usize),
    /// A pair should end here, and no hexadecimal digit stands here, or the line ends.
    #[error("column {} lacks the second digit of a pair", .0.saturating_add(1))]
    NoSecondDigit(usize),
}

/// Why a line gives no bytes.
#[derive(Debug, Drop, Error)]
pub enum LineError {
    /// It stands for none.
    #[error(transparent)]
    Malformed(Malformed),
    /// There was no memory for them.
    #[error(transparent)]
    Memory(AllocError),
}

// Written by hand, since the derived ones do not say which error they make.
impl From<Malformed> for LineError {
    ghost from_gives = { λ malformed e. e ≡ bad.Malformed malformed };

    fn from(malformed: Malformed) -> LineError {
        LineError::Malformed(malformed)
    }
}

impl<T: Drop> From<AllocFailed<T>> for LineError {
    ghost from_gives = { λ _ e. e ≡ bad.Memory alloc_error };

    fn from(_: AllocFailed<T>) -> LineError {
        LineError::Memory(AllocError)
    }
}

/// What one character of a line does.
// An enum and no closures, since the definition of a line goes by these steps.
#[derive(Clone, Copy, PartialEq, Eq, Debug, Drop)]
pub enum Step {
    /// It stands between pairs, and is passed over.
    Pass,
    /// It is the first digit of a pair: the digit as it stands in the line.
    Half(u8),
    /// It is the second digit of a pair: the value of the pair, which is a byte of the frame.
    Whole(u8),
    /// It begins a comment, so that the line's bytes end before it.
    Comment,
}

/// The value of a hexadecimal digit, 0 to 15, or `None` for any other character.
pub fn digit(text: u8) -> Option<u8>
    ensures { result ≡ digit_of text }
{
    match text {
        b'0'..=b'9' => Some(text - b'0'),
        b'A'..=b'F' => Some(text - b'A' + 10),
        b'a'..=b'f' => Some(text - b'a' + 10),
        _ => None,
    }
}

/// The value of two hexadecimal digits, the higher one first, or `None` where one is none.
pub fn pair(high: u8, low: u8) -> Option<u8>
    ensures { result ≡ pair_of high low }
{
    Some(digit(high)? * 16 + digit(low)?)
}

/// What the character at a place does, where the first digit of a pair may be waiting for its second. A waiting digit
/// is refused if this is no second one, and at other times a character that may not begin anything is.
pub fn classify(place: usize, waiting: Option<u8>, text: u8) -> Result<Step, Malformed>
    ensures { result ≡ step_of place waiting text }
{
    if let Some(high) = waiting {
        let value = pair(high, text).ok_or(Malformed::NoSecondDigit(place))?;
        return Ok(Step::Whole(value));
    }
    match text {
        b'#' => Ok(Step::Comment),
        b' ' | b'\t' | b'\r' | b'-' | b':' => Ok(Step::Pass),
        _ if digit(text).is_some() => Ok(Step::Half(text)),
        _ => Err(Malformed::NoDigit(place)),
    }
}

/// The bytes that a line stands for: none for a blank line or a comment. The line comes without its end.
pub fn parse(heap: Global, text: &[u8]) -> Result<Vec<u8>, LineError>
    ensures bytes { IfOk result (λ frame. bytes_in text.now ≡ Ok frame.items) }
    ensures malformed { IfErr result (Explains text.now) }
{
    let mut frame = Vec::new(heap);
    let mut waiting = None;
    for (place, character) in text.iter().enumerate() {
        waiting = match classify(place, waiting, *character)? {
            Step::Pass => None,
            Step::Half(high) => Some(high),
            Step::Whole(value) => {
                frame.push(value)?;
                None
            }
            Step::Comment => return Ok(frame),
        };
    }
    match waiting {
        None => Ok(frame),
        Some(_) => Err(Malformed::NoSecondDigit(text.len()).into()),
    }
}
