//! Lots that are drawn by a fixed rule.

/// Numbers by a fixed rule, a linear congruential one, so that each run makes the same records. A copy gives the same numbers again.
#[derive(Clone, Copy)]
pub struct Draw {
    state: u32,
}

impl Draw {
    /// The rule from its start.
    pub fn new() -> Draw {
        Draw { state: 1851 }
    }

    /// The next number, below 65,536.
    fn next(&mut self) -> usize {
        self.state = self.state.wrapping_mul(1_103_515_245).wrapping_add(12_345);
        (self.state >> 16) as usize
    }

    /// A number below `count`, or 0 where there is none.
    pub fn below(&mut self, count: usize) -> usize {
        self.next().checked_rem(count).unwrap_or(0)
    }

    /// One of the texts, or the empty text where there is none.
    pub fn one_of<'a>(&mut self, texts: &[&'a str]) -> &'a str {
        let place = self.below(texts.len());
        texts.get(place).copied().unwrap_or("")
    }
}
