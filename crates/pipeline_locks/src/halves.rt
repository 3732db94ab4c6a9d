//! Who holds the halves of the pipeline, and what is answered to one who asks to enter.

ghost use Rattle.std.specs.Prelude.{◌≡◌, ◌==◌, ◌≤◌, [], ◌∷◌, None};
ghost use Rattle.pipeline_locks.specs.Holders.{has_half, first_held, given, without};

use std::marker::Model;

/// What is answered to one who asks to enter the pipeline.
#[derive(Clone, Copy, Debug, PartialEq, Eq)]
pub enum Admission {
    /// It may enter. With two or more passes the halves that it touches are now its own.
    Entered,
    /// Nothing changed, since this client holds a half that it touches. The left half's holder is named first.
    Taken(u8),
}

/// The holder of each half, the left one first. At most one client holds a half.
#[derive(Debug, Drop)]
pub struct Halves {
    holders: [Option<u8>; 2],
}

impl Model for Halves {
    ghost use Rattle.std.specs.Prelude.{◌≡◌, length};
    ghost use Rattle.pipeline_locks.specs.Holders.{Holders};

    ghost Value = { Holders };

    ghost view = { λ a. a.holders };

    ghost invariant = { λ a. length a.holders ≡ 2 };
}

impl Halves {
    ghost use Rattle.pipeline_locks.specs.Entry.{IsTried};

    /// Both halves are free.
    pub fn free() -> Halves
        ensures { result ≡ None ∷ None ∷ [] }
    {
        Halves { holders: [None; 2] }
    }

    /// Asks for a client, which as a rule holds no half. `halves` says which ones it touches: 1 for left, 2 for
    /// right, 3 for both. With one pass it takes none.
    pub fn try_enter(&mut self, halves: u8, passes: u8, client: u8) -> Admission
        requires { (1 ≤ halves) × (halves ≤ 3) }
        ensures { IsTried self.old self.new halves passes client result }
    {
        if let Some(holder) = self.first_held(halves) {
            return Admission::Taken(holder);
        }
        if passes >= 2 {
            self.give(halves, client);
        }
        Admission::Entered
    }

    /// Takes all halves from the client.
    pub fn leave(&mut self, client: u8)
        ensures { self.new ≡ without client self.old }
    {
        for holder in self.holders.iter_mut() {
            if *holder == Some(client) {
                *holder = None;
            }
        }
    }

    /// The holder of the first of these halves that is held.
    fn first_held(&self, halves: u8) -> Option<u8>
        ensures { result ≡ first_held halves self.now }
    {
        for (half, holder) in self.holders.iter().enumerate() {
            if has_half(halves, half) && holder.is_some() {
                return *holder;
            }
        }
        None
    }

    fn give(&mut self, halves: u8, client: u8)
        ensures { self.new ≡ given halves client self.old }
    {
        for (half, holder) in self.holders.iter_mut().enumerate() {
            if has_half(halves, half) {
                *holder = Some(client);
            }
        }
    }
}

/// Whether the set of halves has this one, counted from 0.
fn has_half(halves: u8, half: usize) -> bool
    requires { half ≤ 1 }
    ensures { result ≡ has_half halves half }
{
    halves >> half & 1 == 1
}
