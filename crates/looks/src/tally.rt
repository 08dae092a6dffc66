// Looks added up over many searches.

use std::fmt;

// The most that one search took, and all together.
#[derive(Clone, Copy, Default)]
pub struct Tally {
    pub most: usize,
    pub all: usize,
}

impl fmt::Display for Tally {
    fn fmt<W: fmt::Write>(&self, f: &mut fmt::Formatter<W>) -> fmt::Result {
        let most = self.most;
        let all = self.all;
        write!(f, "{most}\t{all}")
    }
}

impl Tally {
    // One search more; what doesn't fit is left out.
    pub fn add(&mut self, looks: usize) {
        self.most = self.most.max(looks);
        self.all = self.all.checked_add(looks).unwrap_or(self.all);
    }
}
