//! Where the lines of a text begin, found once for all of its places.
use ir_tokens::Position;
use std::alloc::{AllocError, Global};

/// Where the lines of a text begin.
#[derive(Drop)]
pub struct LineStarts {
    /// How many bytes come before each line.
    starts: Vec<usize>,
    /// How many bytes the text has.
    length: usize,
}

impl LineStarts {
    /// Finds where the lines of a text begin.
    pub fn of(alloc: Global, text: &[u8]) -> Result<LineStarts, AllocError> {
        let mut starts = Vec::new(alloc);
        starts.push(0usize)?;
        for (place, byte) in text.iter().enumerate() {
            if *byte == b'\n' {
                starts.push(place.saturating_add(1))?;
            }
        }
        Ok(LineStarts {
            starts,
            length: text.len(),
        })
    }

    /// How many lines begin up to a place.
    fn lines_to(&self, place: usize) -> usize {
        let mut first: usize = 0;
        let mut end = self.starts.len();
        for _halving in 0..usize::BITS {
            let middle = first.saturating_add(end.saturating_sub(first) / 2);
            match self.starts.get(middle) {
                Some(start) if *start <= place && first < end => first = middle.saturating_add(1),
                _ => end = middle,
            }
        }
        first
    }

    /// The line and the column of the byte at a place, or of the end of a shorter text.
    pub fn position(&self, place: u32) -> Position {
        let place = (place as usize).min(self.length);
        let line = self.lines_to(place);
        let start = self.starts.get(line.saturating_sub(1)).copied();
        Position {
            line,
            column: place.saturating_sub(start.unwrap_or(0)).saturating_add(1),
        }
    }
}
