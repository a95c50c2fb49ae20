//! Where texts were found before, to be looked at first.
use crate::text_key::SHORT;
use std::alloc::Global;

/// The least number of hints.
const FEWEST: usize = 64;

/// Numbers of texts, each at a slot that its last bytes tell. Texts may share a slot, so a hint may be that of another text. No
/// contract speaks of hints: who takes one sees whether it is right.
#[derive(Drop)]
pub struct Hints {
    numbers: Vec<u32>,
}

// The slot of a text among so many, a power of two.
fn slot_of(text: &[u8], slots: usize) -> usize {
    let mut mixed = text.len() as u64;
    for i in text.len().saturating_sub(SHORT)..text.len() {
        mixed = mixed
            .wrapping_mul(0x9E37_79B9_7F4A_7C15)
            .wrapping_add(text[i] as u64);
    }
    mixed = mixed.wrapping_mul(0x9E37_79B9_7F4A_7C15);
    (mixed >> 32) as usize & slots.saturating_sub(1)
}

impl Hints {
    /// No hints.
    pub fn none(alloc: Global) -> Hints {
        Hints {
            numbers: Vec::new(alloc),
        }
    }

    /// The same hints; none without memory.
    pub fn copy(&self, alloc: Global) -> Hints {
        match self.numbers.clone() {
            Ok(numbers) => Hints { numbers },
            Err(_) => Hints::none(alloc),
        }
    }

    /// Which number the text may have.
    pub fn of(&self, text: &[u8]) -> usize {
        match self.numbers.get(slot_of(text, self.numbers.len())) {
            Some(number) => *number as usize,
            None => 0,
        }
    }

    /// The text has this number. Where there are fewer slots than twice the numbers up to it, all hints are forgotten for twice
    /// as many slots; without memory they stay as they are.
    pub fn remember(&mut self, alloc: Global, text: &[u8], number: usize) {
        if number >= self.numbers.len() / 2 {
            let slots = self.numbers.len().saturating_mul(2).max(FEWEST);
            if let Ok(numbers) = vec![in alloc; 0u32; slots] {
                self.numbers = numbers;
            }
        }
        let slot = slot_of(text, self.numbers.len());
        if slot < self.numbers.len() {
            // (a hint needs no more bits)
            self.numbers[slot] = number.min(u32::MAX as usize) as u32;
        }
    }
}
