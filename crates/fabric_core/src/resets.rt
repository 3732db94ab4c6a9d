//! Emptying the logs before a run.

ghost use Rattle.std.specs.Prelude.{◌≡◌, ◌≤◌, IsTrue, IfErr, OnOk};
ghost use Rattle.fabric_core.specs.Begun.{IsNotReset, IsReset};
ghost use Rattle.fabric_core.specs.Racks.{seen, StaysFrom};

use port_io::LogRack;

/// Empties the logs of the first so many clients in order, up to the first that can't be emptied; then it
/// says which that is.
pub(crate) fn reset_logs<L: LogRack>(rack: &mut L, clients: u8) -> Result<(), u8>
    requires { clients ≤ 8 }
    ensures reset { OnOk result (IsReset clients (seen (L.told rack.old) (L.keeps rack.old) (L.faults rack.old)) (seen (L.told rack.new) (L.keeps rack.new) (L.faults rack.new))) }
    ensures fault { IfErr result (λ c. IsNotReset clients (seen (L.told rack.old) (L.keeps rack.old) (L.faults rack.old)) (seen (L.told rack.new) (L.keeps rack.new) (L.faults rack.new)) c) }
{
    for client in 0..clients {
        if rack.reset(client).is_err() {
            return Err(client);
        }
    }
    Ok(())
}
