//! Plans as loads.

ghost use Rattle.catalogue.specs.LoadPlans.{IsYcsbPlan};

use crate::ops::drawn_ops;
use catalogue::YcsbPlan;
use load_base::{Load, Size};
use schedule::Dice;
use std::alloc::Global;
use txn_model::{NoMemory, Script};

/// The first value of each record.
const VALUE: i64 = 100;

/// A plan within its ranges.
#[derive(Clone, Copy)]
pub(crate) struct Ycsb {
    pub(crate) plan: YcsbPlan,
    ghost within: { IsYcsbPlan plan },
}

impl Load for Ycsb {
    ghost use Rattle.ycsb.specs.Ycsb.{ycsb_size, ycsb_script};

    ghost size = { λ load. ycsb_size load.plan };

    ghost script = { λ load. ycsb_script load.plan };

    fn size(&self) -> Size {
        Size {
            number: self.plan.number,
            clients: self.plan.clients,
            scripts: self.plan.scripts,
            tuples: self.plan.records,
            hot: self.plan.hot,
            value: VALUE,
        }
    }

    fn draw(&self, alloc: Global, dice: &mut Dice) -> Result<Script, NoMemory> {
        drawn_ops(alloc, &self.plan, dice)
    }
}
