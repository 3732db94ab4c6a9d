//! Recovering from the logs themselves.

ghost use Rattle.std.specs.Prelude.{◌≡◌, ◌≤◌, Err, length, map, IfOk, IfErr, IsTrue, if◌then◌else◌};
ghost use Rattle.catalogue.specs.PlanOf.{plan_of};
ghost use Rattle.port_io.specs.Cause.{Rose, HasCause};
ghost use Rattle.port_io.specs.LogRack.{AllStay};
ghost use Rattle.switch_packet.specs.Packets.{plain_log};
ghost use Rattle.switch_recovery.specs.Recovering.{AreRead, torn_bits, Recovers, IsRecoverable, HasFailed, of_client};
ghost use Rattle.switch_recovery.specs.declared.recovered.RecoveryFault.TheVariants.{NoMemory};

use crate::restored::{RestoreFault, Restored, restore};
use catalogue::Session;
use intent_log::{LogFault, read_log};
use port_io::LogRack;
use std::alloc::{AllocError, Global};
use switch_packet::LogView;

/// Which logs have a torn end: bit c is set where that of client c has.
#[derive(Clone, Copy, Debug, PartialEq, Eq)]
pub struct Torn(pub u8);

/// The switch behind all packets of the logs, and which logs were torn.
#[derive(Debug, Drop)]
pub struct Recovered {
    pub restored: Restored,
    pub torn: Torn,
}

/// Why nothing was recovered.
#[derive(Clone, Copy, Debug, PartialEq, Eq)]
pub enum RecoveryFault {
    /// A read of this client's log failed, and the rack's count of failures rose.
    LogFailed(u8),
    /// A byte beyond 16,777,216 was read of this client's log.
    LogTooLong(u8),
    /// This client's log is damaged at this place.
    LogDamaged(u8, u64),
    /// An intent names a place outside the layout, as in `RestoreFault`.
    BadIntent(u8, u32),
    /// No order of the packets fits the logs.
    NoOrder,
    /// No memory was left.
    NoMemory,
}

impl From<AllocError> for RecoveryFault {
    ghost from_gives = { λ _ fault. fault ≡ NoMemory };

    fn from(_: AllocError) -> Self {
        RecoveryFault::NoMemory
    }
}

/// Reads the logs of the session's clients in order, and restores the switch from them.
///
/// `LogFailed`, `LogTooLong` and `LogDamaged` are the fault of the first client whose log has one; then come
/// `BadIntent` and `NoOrder`, as `restore` gives them. The rack tells the logs that it told before.
pub fn recover<L: LogRack>(
    alloc: Global,
    rack: &mut L,
    session: &Session,
) -> Result<Recovered, RecoveryFault>
    ensures recovers { Recovers (plan_of session.now) (L.told rack.old) result }
    ensures unchanged { AllStay (L.told rack.old) (L.told rack.new) }
    ensures keeps_on { IsTrue (L.keeps rack.old) → IsTrue (L.keeps rack.new) }
    ensures cause { HasCause (L.faults rack.old) (L.faults rack.new) (HasFailed result) }

    // The switch is recovered wherever the logs allow it, unless a read failed or memory ran out.
    ensures complete { IsRecoverable (plan_of session.now) (L.told rack.old) → (Rose (L.faults rack.old) (L.faults rack.new) → ⊥)
        → IfErr result (λ fault. fault ≡ NoMemory) }
{
    let views = read_logs(alloc, rack, session)?;
    let torn = torn_of(views.as_slice(), session.clients());
    match restore(alloc, views.as_slice(), session) {
        Ok(restored) => Ok(Recovered { restored, torn }),
        Err(RestoreFault::BadIntent(client, seq)) => Err(RecoveryFault::BadIntent(client, seq)),
        Err(RestoreFault::NoOrder) => Err(RecoveryFault::NoOrder),
        Err(RestoreFault::NoMemory) => Err(RecoveryFault::NoMemory),
    }
}

/// What the logs of the session's clients say, by client.
fn read_logs<L: LogRack>(
    alloc: Global,
    rack: &mut L,
    session: &Session,
) -> Result<Vec<LogView>, RecoveryFault>
    ensures count { IfOk result (λ views. length views.items ≡ length (plan_of session.now).clients) }
    ensures read { IfOk result (λ views. AreRead (L.told rack.old) 0 (map plain_log views.items)) }
    ensures stopped { IfErr result (λ fault. Recovers (plan_of session.now) (L.told rack.old) (Err fault)) }
    ensures unchanged { AllStay (L.told rack.old) (L.told rack.new) }
    ensures keeps_on { IsTrue (L.keeps rack.old) → IsTrue (L.keeps rack.new) }
    ensures cause { HasCause (L.faults rack.old) (L.faults rack.new) (HasFailed result) }
{
    let clients = session.clients();
    let mut views = Vec::with_capacity(alloc, clients as usize)?;
    for client in 0..clients {
        match read_log(alloc, rack, client) {
            Ok(view) => views.push_reserved(view),
            Err(fault) => return Err(fault_of(client, fault)),
        }
    }
    Ok(views)
}

/// The fault of a client's log.
fn fault_of(client: u8, fault: LogFault) -> RecoveryFault
    ensures { result ≡ of_client client fault }
{
    match fault {
        LogFault::Failed => RecoveryFault::LogFailed(client),
        LogFault::TooLong => RecoveryFault::LogTooLong(client),
        LogFault::Damaged(at) => RecoveryFault::LogDamaged(client, at),
        LogFault::NoMemory => RecoveryFault::NoMemory,
    }
}

/// A bit for each client whose log is torn, that of client 0 lowest.
fn torn_of(views: &[LogView], clients: u8) -> Torn
    requires few { clients ≤ 8 }
    requires count { length views.now ≡ clients }
    ensures { result.0 ≡ torn_bits (map plain_log views.now) }
{
    let mut bits = 0;
    for behind in 0..clients {
        let view = &views[(clients - 1 - behind) as usize];
        bits = 2 * bits + bit_of(view.torn);
    }
    Torn(bits)
}

/// 1 where it holds.
fn bit_of(torn: bool) -> u8
    ensures { result ≡ (if torn then 1 else 0) }
{
    if torn { 1 } else { 0 }
}
