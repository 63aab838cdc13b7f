//! Whether tries save more than they cost.

/// Decides which tries are made, by what the latest tries cost and saved. After tries that saved too little,
/// some are skipped.
#[derive(Clone, Copy)]
pub struct Throttle {
    /// After `tries` tries, these are judged: if they didn't save at least `least` more than they cost, the next
    /// `pause` tries are skipped.
    tries: u32,
    least: u64,
    pause: u32,
    /// The tries since they were last judged, what they cost, and what they saved.
    tried: u32,
    spent: u64,
    saved: u64,
    /// How many go by before the next one.
    rest: u32,
}

impl Throttle {
    /// No try was made. This many must save what they cost and `least` more, or `pause` go by.
    pub fn new(tries: u32, least: u64, pause: u32) -> Throttle {
        Throttle {
            tries,
            least,
            pause,
            tried: 0,
            spent: 0,
            saved: 0,
            rest: 0,
        }
    }

    /// Returns true if a try is to be made, and counts it.
    pub fn allows(&mut self) -> bool {
        if self.rest > 0 {
            self.rest -= 1;
            return false;
        }
        if self.tried >= self.tries {
            let due = self.spent.saturating_add(self.least);
            self.rest = if self.saved < due { self.pause } else { 0 };
            self.tried = 0;
            self.spent = 0;
            self.saved = 0;
        }
        self.tried = self.tried.saturating_add(1);
        true
    }

    /// Counts what a try cost.
    pub fn count_cost(&mut self, cost: u64) {
        self.spent = self.spent.saturating_add(cost);
    }

    /// Counts what a try saved.
    pub fn count_saved(&mut self, saved: u64) {
        self.saved = self.saved.saturating_add(saved);
    }
}
