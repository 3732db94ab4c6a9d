//! The operations of a script on hosts.

ghost use Rattle.std.specs.Prelude.{◌≡◌, ◌<◌, ◌≤◌, length, None};
ghost use Rattle.txn_model.specs.ScriptCheck.{script_fault};
ghost use Rattle.client_phase.specs.ColdNumbers.{cold_count, cold_number};

use txn_model::Script;
use warm_split::Parts;

/// How many operations of the script are on hosts.
pub(crate) fn cold_count(script: &Script, parts: &Parts) -> u8
    requires fit { script_fault script.now.items ≡ None }
    ensures value { result ≡ cold_count parts.now script.now.items }
    ensures bound { result ≤ 16 }
{
    if parts.hot.is_empty() {
        return script.len() as u8;
    }
    let mut count = 0;
    for op in 0..script.len() as u8 {
        if !parts.hot.has(op) {
            count += 1;
        }
    }
    count
}

/// The number of the operation on a host that has this many of them before it.
pub(crate) fn cold_number(script: &Script, parts: &Parts, nth: u8) -> u8
    requires fit { script_fault script.now.items ≡ None }
    requires there { nth < cold_count parts.now script.now.items }
    ensures value { result ≡ cold_number parts.now script.now.items nth }
    ensures bound { result < length script.now.items }
{
    if parts.hot.is_empty() {
        return nth;
    }
    let mut left = nth;
    for op in 0..script.len() as u8 {
        if !parts.hot.has(op) {
            if left == 0 {
                return op;
            }
            left -= 1;
        }
    }
    unreachable!()
}
