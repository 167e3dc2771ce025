//! Pseudo-random numbers, the same in each run.

/// A generator whose numbers follow only from its state.
#[derive(Clone, Copy)]
pub struct Dice {
    pub state: u64,
}

impl Dice {
    /// Returns a number below the number of sides, or 0 if there are none.
    pub fn throw(&mut self, sides: u32) -> u32 {
        self.state = self
            .state
            .wrapping_mul(6364136223846793005)
            .wrapping_add(1442695040888963407);
        let high = u32::try_from(self.state >> 33).unwrap_or(0);
        high.checked_rem(sides).unwrap_or(0)
    }

    /// Returns one of `count` places: the last one as often as all together.
    pub fn place(&mut self, count: usize) -> usize {
        if self.throw(2) == 0 {
            return count.saturating_sub(1);
        }
        self.throw(u32::try_from(count).unwrap_or(0)) as usize
    }
}
