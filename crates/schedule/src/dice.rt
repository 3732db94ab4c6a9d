//! Numbers drawn from a generator.

ghost use Rattle.std.specs.Prelude.{◌≡◌, ◌≤◌, ◌<◌};
ghost use Rattle.schedule.specs.Dice.{seeded, words_of, draw, key};

use rand_core::{Rng, SeedableRng};
use rand_pcg::Lcg64Xsh32;
use std::marker::Model;

/// A generator of numbers: the same one gives the same draws. Contracts speak of the words that it will give.
#[derive(Drop)]
pub struct Dice {
    words: Lcg64Xsh32,
}

impl Model for Dice {
    ghost use Rattle.rand_pcg.specs.Lcg.{Lcg};

    ghost Value = { Lcg };

    ghost view = { λ a. a.words };
}

impl Dice {
    /// The generator that is seeded by this number.
    pub fn of(number: u64) -> Dice
        ensures { result ≡ seeded number }
    {
        Dice {
            words: Lcg64Xsh32::seed_from_u64(number),
        }
    }

    /// A number below `n`.
    pub fn draw(&mut self, n: u32) -> u32
        requires { 1 ≤ n }
        ensures value { (result, words_of self.new) ≡ draw n (words_of self.old) }
        ensures bound { result < n }
    {
        self.words.next_u32() % n
    }

    /// A key below `n`, of which the first `hot` are taken `share` times out of 100.
    pub fn key(&mut self, n: u32, hot: u32, share: u8) -> u32
        requires some { 1 ≤ n }
        requires hot { hot ≤ n }
        requires share { share ≤ 100 }
        ensures value { (result, words_of self.new) ≡ key n hot share (words_of self.old) }
        ensures bound { result < n }
    {
        let at = self.draw(100);
        if hot == 0 || hot == n {
            self.draw(n)
        } else if at < u32::from(share) {
            self.draw(hot)
        } else {
            hot + self.draw(n - hot)
        }
    }
}
