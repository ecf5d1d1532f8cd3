//! Random choices, the same for the same seed.

ghost use Rattle.std.specs.Prelude.{◌≤◌};

use rand_xoshiro::Xoshiro256PlusPlus;
use rand_xoshiro::rand_core::{Rng, SeedableRng};

/// A generator of random choices.
#[derive(Drop)]
pub struct Dice {
    generator: Xoshiro256PlusPlus,
}

impl Dice {
    /// The generator of that seed.
    pub fn new(seed: u64) -> Dice {
        Dice {
            generator: Xoshiro256PlusPlus::seed_from_u64(seed),
        }
    }

    /// A number below the limit, or 0 if the limit is 0.
    pub fn below(&mut self, limit: usize) -> usize
        ensures { result ≤ limit }
    {
        if limit == 0 {
            return 0;
        }
        (self.generator.next_u64() % limit as u64) as usize
    }

    /// Whether a choice of one in so many falls.
    pub fn one_in(&mut self, limit: usize) -> bool {
        self.below(limit) == 0
    }

    /// One of the items, or the other if there are none.
    pub fn pick<T: Copy>(&mut self, items: &[T], other: T) -> T {
        let at = self.below(items.len());
        match items.get(at) {
            Some(item) => *item,
            None => other,
        }
    }

    /// One of the texts.
    pub fn text(&mut self, texts: &[&'static str]) -> &'static str {
        self.pick(texts, "")
    }
}
