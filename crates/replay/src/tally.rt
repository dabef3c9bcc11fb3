// How many vectors a list has, and how many differ.
use std::fmt;

#[derive(Clone, Copy, Default)]
pub struct Tally {
    pub vectors: u64,
    pub differ: u64,
}

impl Tally {
    /// Counts a vector.
    pub fn count(&mut self, same: bool) {
        self.vectors = self.vectors.saturating_add(1);
        self.differ = self.differ.saturating_add(u64::from(!same));
    }
}

impl fmt::Display for Tally {
    fn fmt<W: fmt::Write>(&self, f: &mut fmt::Formatter<W>) -> fmt::Result {
        write!(f, "{} vectors, {} differ", self.vectors, self.differ)
    }
}
