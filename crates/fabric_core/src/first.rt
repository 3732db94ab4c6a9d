//! What is there before the first move.

ghost use Rattle.std.specs.Prelude.{◌≡◌, ◌≤◌, length, map, IfOk};
ghost use Rattle.std.specs.FinMap.{entries};
ghost use Rattle.catalogue.specs.PlanOf.{plan_of};
ghost use Rattle.catalogue.specs.Sound.{IsSound};
ghost use Rattle.core_model.specs.Run.{first_clients};
ghost use Rattle.fabric_model.specs.Run.{host_rows, opening};
ghost use Rattle.fabric_model.specs.State.{no_records};
ghost use Rattle.fabric_core.specs.Standing.{AreLogs, AreRunners, StandsFor, log_room};

use crate::core_state::CoreState;
use crate::draft::Draft;
use crate::room::item_count;
use crate::runner::Runner;
use catalogue::Session;
use history_core::History;
use host_locks::LockTable;
use host_store::HostStore;
use log_records::ClientLog;
use pipeline::Pipeline;
use std::alloc::Global;
use txn_model::{Items, NoMemory, TupleId, TupleMap};

impl CoreState {
    /// What there is before the first move, with room for all that may come.
    pub fn opening(alloc: Global, session: &Session) -> Result<CoreState, NoMemory>
        requires { IsSound (plan_of session.now) }
        ensures { IfOk result (λ core. StandsFor (plan_of session.now) (opening (plan_of session.now)) core) }
    {
        if session.layout.as_slice().is_empty() {
            return CoreState::with_hosts(alloc, session, &session.tuples);
        }
        let rows = host_rows(alloc, session)?;
        let hosts = TupleMap::of(alloc, rows.as_slice())?;
        CoreState::with_hosts(alloc, session, &hosts)
    }

    /// That, where the hosts have these tuples.
    fn with_hosts(alloc: Global, session: &Session, hosts: &TupleMap) -> Result<CoreState, NoMemory>
        requires sound { IsSound (plan_of session.now) }
        requires hosts { entries hosts.now ≡ host_rows (plan_of session.now) }
        ensures { IfOk result (λ core. StandsFor (plan_of session.now) (opening (plan_of session.now)) core) }
    {
        let ids = tuple_ids(alloc, hosts.rows())?;
        let most = usize::from(session.tries) * item_count(session);
        Ok(CoreState {
            runners: first_runners(alloc, session)?,
            logs: first_logs(alloc, session)?,
            is_up: true,
            pipeline: Pipeline::fresh(
                alloc,
                &session.shape,
                &session.layout,
                &session.tuples,
                session.clients(),
            )?,
            locks: LockTable::fresh(alloc, ids.as_slice())?,
            store: HostStore::fresh(alloc, hosts)?,
            history: History::for_session(alloc, session)?,
            refusals: Items::of(Vec::with_capacity(alloc, most)?),
            draft: Draft::fresh(alloc)?,
        })
    }
}

/// Each client at the first of its items.
fn first_runners(alloc: Global, session: &Session) -> Result<Vec<Runner>, NoMemory>
    requires { IsSound (plan_of session.now) }
    ensures { IfOk result (λ runners. AreRunners (plan_of session.now) (first_clients (plan_of session.now).clients) runners.items) }
{
    let clients = session.clients();
    let mut runners = Vec::with_capacity(alloc, usize::from(clients))?;
    for client in 0..clients {
        runners.push(Runner::fresh(alloc, session, client)?)?;
    }
    Ok(runners)
}

/// A log for each client, with room for all records that it makes.
fn first_logs(alloc: Global, session: &Session) -> Result<Vec<ClientLog>, NoMemory>
    requires { IsSound (plan_of session.now) }
    ensures { IfOk result (λ logs. AreLogs (plan_of session.now) (map (λ items. no_records) (plan_of session.now).clients) logs.items) }
{
    let clients = session.clients();
    let mut logs = Vec::with_capacity(alloc, usize::from(clients))?;
    for client in 0..clients {
        let room = log_room(session, session.items(client) as usize);
        logs.push(ClientLog::fresh(alloc, room)?)?;
    }
    Ok(logs)
}

/// How many records of each kind a client with so many items makes at most. Where no tuple is in the
/// switch it makes none.
fn log_room(session: &Session, items: usize) -> usize
    ensures { result ≡ log_room (plan_of session.now).layout items }
{
    if session.layout.as_slice().is_empty() {
        0
    } else {
        items
    }
}

/// The tuples of hosts with their first values, in order.
fn host_rows(alloc: Global, session: &Session) -> Result<Vec<(TupleId, i64)>, NoMemory>
    ensures { IfOk result (λ rows. rows.items ≡ host_rows (plan_of session.now)) }
{
    let mut rows = Vec::new(alloc);
    for row in session.tuples.rows() {
        if !session.is_hot(row.0) {
            rows.push(*row)?;
        }
    }
    Ok(rows)
}

/// The tuples of rows, in order.
fn tuple_ids(alloc: Global, rows: &[(TupleId, i64)]) -> Result<Vec<TupleId>, NoMemory>
    ensures { IfOk result (λ ids. ids.items ≡ map (λ row. row.0) rows.now) }
{
    let ids = rows.iter().map(|row| row.0).collect(alloc)?;
    Ok(ids)
}
