//! The needs of an operation on each side of its script.

ghost use Rattle.std.specs.Prelude.{◌≡◌, ◌≤◌, List};
ghost use Rattle.txn_model.specs.Needs.{needs_list};
ghost use Rattle.stage_layout.specs.Late.{Part};
ghost use Rattle.warm_split.specs.Parts.{IsHotSet};
ghost use Rattle.warm_split.specs.Resolved.{packet_number, hot_needs, cold_needs};

use crate::op_set::OpSet;
use txn_model::{Need, Needs};

/// The number of an operation in the packet: how many of the hot ones are before it.
fn packet_number(hot: OpSet, op: u8) -> u8
    ensures bound { result ≤ op }
    ensures number { (parts : List Part) → IsHotSet parts hot → result ≡ packet_number parts op }
{
    let mut number = 0;
    for k in 0..op {
        if hot.has(k) {
            number += 1;
        }
    }
    number
}

/// The needs of hot operations, by their numbers in the packet.
pub(crate) fn hot_needs(needs: &Needs, hot: OpSet) -> Needs
    ensures { (parts : List Part) → IsHotSet parts hot → needs_list result ≡ hot_needs parts (needs_list needs.now) }
{
    let mut found = Needs::none();
    for i in 0..needs.len() {
        let need = needs.get(i);
        if hot.has(need.from) {
            found.push(Need {
                from: packet_number(hot, need.from),
                which: need.which,
            });
        }
    }
    found
}

/// The needs of operations on hosts.
pub(crate) fn cold_needs(needs: &Needs, hot: OpSet) -> Needs
    ensures { (parts : List Part) → IsHotSet parts hot → needs_list result ≡ cold_needs parts (needs_list needs.now) }
{
    let mut found = Needs::none();
    for i in 0..needs.len() {
        let need = needs.get(i);
        if !hot.has(need.from) {
            found.push(need);
        }
    }
    found
}
