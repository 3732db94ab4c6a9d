//! Loads: how large a session is, and how its scripts are drawn.

ghost use Rattle.std.specs.Prelude.{◌≡◌, IfOk};
ghost use Rattle.schedule.specs.Dice.{words_of};
ghost use Rattle.load_base.specs.Load.{IsFitFor};

use schedule::Dice;
use std::alloc::Global;
use txn_model::{NoMemory, Script};

/// How large a generated session is.
#[derive(Clone, Copy, Debug, PartialEq, Eq)]
pub struct Size {
    /// Seeds the generator.
    pub number: u64,
    pub clients: u8,
    /// Scripts of each client.
    pub scripts: u32,
    pub tuples: u32,
    /// How many tuples are hot: the first ones.
    pub hot: u32,
    /// The first value of each tuple.
    pub value: i64,
}

/// What sessions are generated from.
pub trait Load {
    ghost use Rattle.std.specs.Prelude.{List};
    ghost use Rattle.txn_model.specs.declared.op.Op.{Op};
    ghost use Rattle.schedule.specs.Dice.{Words};
    ghost use Rattle.load_base.specs.declared.size.Size.{Size};

    // How large the session is.
    ghost size: { Self → Size };

    // A script from the words to come, and the words that are left.
    ghost script: { Self → Words → List Op × Words };

    /// How large the session is.
    fn size(&self) -> Size
        ensures { result ≡ size self.now };

    /// A drawn script, which a session of that size can run.
    fn draw(&self, alloc: Global, dice: &mut Dice) -> Result<Script, NoMemory>
        ensures drawn { IfOk result (λ drawn. (drawn.items, words_of dice.new) ≡ script self.now (words_of dice.old)) }
        ensures fit { IfOk result (λ drawn. IsFitFor (size self.now) drawn.items) };
}
