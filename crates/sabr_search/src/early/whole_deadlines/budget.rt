//! When layers for one delivery are made, and whether questions are asked of them.

use crate::throttle::Throttle;

/// Layers are made once the searches with a floor have taken this many times the looks that the last layers took. With
/// 8, 1000 routes over a relay took 6 percent more instructions, and a grid of 64 nodes 5 percent more; 60 nodes that
/// all see each other as many. It was varied in a copy of this design in plain Rust.
const TIMES: u64 = 32;

/// The looks that the first layers are taken to need. With 1, 1000 routes over `walker-24-5000` took 19 percent more
/// instructions, and over `grid-8` 5 percent more; with 1024, over `dense-60` 33 percent more, and over `iridium-6-10`
/// 4 percent more. This and the next were varied as `TIMES` was, over seven plans of `bench/figures.py`.
const FIRST_PRICE: u64 = 64;

/// This many questions are asked of layers before it is counted how many they answered. With 16, `iridium-6-10` took 13
/// percent more and `grid-8` 6 fewer, with 0.7 more on average over twelve plans; with 64, `relay-moon-2000` took 4
/// more.
const TRIES: u32 = 32;

/// If they answered fewer, `PAUSE` questions aren't asked of them. With 0, `relay-moon-2000` took 7 percent more; with
/// 20, `iridium-6-10` took 20 percent more, and `grid-8` 9 percent fewer.
const LEAST: u64 = 10;

/// With 1024, `walker-24-5000` took 5 percent more, and `relay-moon-2000` 1 percent fewer.
const PAUSE: u32 = 128;

/// The looks that questions with one floor took, and those that layers take.
#[derive(Clone, Copy)]
pub struct WholeBudget {
    /// The floor.
    floor: u64,
    /// The looks of the searches with it.
    spent: u64,
    /// Whether layers for this floor were made, or begun and stopped.
    made: bool,
    /// The looks that the last layers took.
    price: u64,
    /// Whether questions are answered.
    tries: Throttle,
}

impl WholeBudget {
    /// Nothing was spent.
    pub fn new() -> WholeBudget {
        WholeBudget {
            floor: 0,
            spent: 0,
            made: false,
            price: FIRST_PRICE,
            tries: Throttle::new(TRIES, LEAST, PAUSE),
        }
    }

    /// Begins a question with a floor. Returns true if layers are to be made for it: there are none yet, and as much
    /// was spent as is to be before. None are made for second 0, which rules out no delivery.
    pub fn is_due(&mut self, floor: u64) -> bool {
        if floor == 0 {
            return false;
        }
        if floor != self.floor {
            self.floor = floor;
            self.spent = 0;
            self.made = false;
        }
        !self.made && self.spent >= self.price.saturating_mul(TIMES)
    }

    /// Counts a question that was searched with that many looks.
    pub fn count_search(&mut self, looks: u64) {
        self.spent = self.spent.saturating_add(looks);
    }

    /// Counts the looks that layers took.
    pub fn count_layers(&mut self, looks: u64) {
        self.made = true;
        self.price = looks.max(1);
    }

    /// Returns true if a question is to be asked of the layers.
    pub fn allows(&mut self) -> bool {
        self.tries.allows()
    }

    /// Counts a question that they answered.
    pub fn count_answer(&mut self) {
        self.tries.count_saved(1);
    }
}
