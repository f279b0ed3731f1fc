// Numbers as words.
use std::num::ParseIntError;
use std::str::FromStr;

// A number has no plus before it, though parsing would allow one.
pub(crate) fn number<N: FromStr<Err = ParseIntError>>(word: &str) -> Option<N> {
    if word.starts_with('+') {
        None
    } else {
        word.parse::<N>().ok()
    }
}
