//! The words of a question.

/// The words that remain to be read, separated by single spaces.
#[derive(Clone, Copy)]
pub struct Words<'a> {
    pub rest: &'a str,
}

impl<'a> Words<'a> {
    /// Returns the next word, or an empty one if none remains.
    pub fn next_word(&mut self) -> &'a str {
        let rest = self.rest;
        match rest.split_once(' ') {
            Some((word, behind)) => {
                self.rest = behind;
                word
            }
            None => {
                self.rest = "";
                rest
            }
        }
    }

    /// Returns the number that the next word spells, if any.
    pub fn number(&mut self) -> Option<u32> {
        match self.next_word().parse::<u32>() {
            Ok(number) => Some(number),
            Err(_) => None,
        }
    }
}
