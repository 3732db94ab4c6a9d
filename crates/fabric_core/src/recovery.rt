//! The switch is rebuilt from the clients' logs.

ghost use Rattle.std.specs.Prelude.{◌≡◌, ◌≢◌, ℕ, ◌+◌, ◌<◌, ◌≤◌, ◌^◌, ◌==◌, List, length, map, IfOk, IsSome, IsTrue, None, Some, true, vec_capacity};
ghost use Rattle.std.specs.FinMap as fin;
ghost use Rattle.std.specs.List.{AllByRecursion, list_any};
ghost use Rattle.port_io.specs.Cause.{HasCause};
ghost use Rattle.port_io.specs.LogRack.{AllStay};
ghost use Rattle.txn_model.specs.declared.place.Place.{Place};
ghost use Rattle.stage_layout.specs.Shape.{has_place};
ghost use Rattle.switch_packet.specs.Packets.{plain_log};
ghost use Rattle.placement_model.specs.FirstOrder.{first_order};
ghost use Rattle.catalogue.specs.Plan.{hot_cells};
ghost use Rattle.catalogue.specs.PlanOf.{plan_of};
ghost use Rattle.catalogue.specs.Sound.{IsSound};
ghost use Rattle.catalogue.specs.declared.actor.Actor.TheVariants.{Recover};
ghost use Rattle.pipeline.specs.ModelLaws.{with_answers};
ghost use Rattle.pipeline.specs.Rows as rows;
ghost use Rattle.gap_placement.specs.Answers.{plain_slotted, plain_rows, first_rows, first_registers};
ghost use Rattle.gap_placement.specs.Logs.{AreReadable, HaveTheirPlaces};
ghost use Rattle.fabric_model.specs.State.{State};
ghost use Rattle.fabric_core.specs.CoreTurns.{IsTurnOf};
ghost use Rattle.fabric_core.specs.Racks.{seen};
ghost use Rattle.fabric_core.specs.Recovering as recovering;
ghost use Rattle.fabric_core.specs.Recovering.{AreCompared, CanPlace, IsExpected, IsReadFault, IsRebuilt, answers_in, resumed_runner, with_rows};
ghost use Rattle.fabric_core.specs.Standing.{IsTurnIn};

use crate::core_state::CoreState;
use crate::kept_views::views_of;
use crate::runner::Runner;
use crate::turn::{Stop, Turn};
use catalogue::Session;
use client_phase::Phase;
use gap_placement::{Placed, Slotted, place_all};
use history_core::{Entry, History};
use intent_log::{CheckFault, check_log};
use log_records::ClientLog;
use pipeline::Pipeline;
use port_io::LogRack;
use std::alloc::Global;
use switch_packet::{Intent, LogView};
use txn_model::{NoMemory, Stamp};

impl CoreState {
    /// Rebuilds the switch where it is lost. First each client's log is compared with the client's records, in
    /// order, up to the first that can't be read or has changed. Then the records are placed, and registers,
    /// answers and the next number are what their packets leave in the first order of all.
    pub fn recover<L: LogRack>(&mut self, alloc: Global, rack: &mut L, session: &Session) -> Turn
        requires { (s : State) × (at : ℕ) × IsTurnIn (plan_of session.now) self.old Recover at s }
        ensures turn { (s : State) (at : ℕ) → IsTurnIn (plan_of session.now) self.old Recover at s
            → IsTurnOf (plan_of session.now) s Recover self.old self.new (seen (L.told rack.old) (L.keeps rack.old) (L.faults rack.old)) (seen (L.told rack.new) (L.keeps rack.new) (L.faults rack.new)) result }
        ensures idle { result ≡ Turn.Idle → rack.new ≡ rack.old }
    {
        if self.is_up {
            return Turn::Idle;
        }
        let Ok(views) = views_of(alloc, self.logs.as_slice()) else {
            return Turn::NoMemory;
        };
        if let Some(stop) = compare_logs(rack, views.as_slice(), &mut self.draft.text) {
            return turn_of(stop);
        }
        let Ok(placed) = first_placement(alloc, session, views.as_slice()) else {
            return Turn::NoMemory;
        };
        self.rebuild(&placed);
        Turn::Moved
    }

    /// Sets the switch up as the placed packets leave it. Those that no outcome answers are answered and
    /// have entries, and their clients wait.
    fn rebuild(&mut self, placed: &Placed)
        requires erased { self.old.pipeline ≡ rows.erased self.old.pipeline }
        requires places { (place : Place) → IsSome (fin.get placed.now.registers place) → IsTrue (has_place self.old.pipeline.shape place) }
        requires few { length (plain_rows placed.now.placement) + 1 < 2 ^ 64 }
        requires open { CanPlace self.old.logs.items self.old.history.runs (rows.restored self.old.pipeline placed.now.registers (length (plain_rows placed.now.placement) + 1)) self.old.history.items (plain_rows placed.now.placement) }
        ensures { IsRebuilt placed.now self.old self.new }
    {
        let rows = placed.placement.as_slice();
        let next = rows.len() as u64 + 1;
        self.pipeline.restore(&placed.registers, next);
        place_open(
            self.logs.as_slice(),
            rows,
            &mut self.pipeline,
            &mut self.history,
        );
        resume_all(self.runners.as_mut_slice());
        self.is_up = true;
    }
}

/// Compares each client's log with what it should say, in order, up to the first that can't be read or has
/// changed: then that is why the run stops.
fn compare_logs<L: LogRack>(rack: &mut L, views: &[LogView], text: &mut Vec<u8>) -> Option<Stop>
    requires few { length views.now ≤ 8 }
    requires expected { AllByRecursion IsExpected (map plain_log views.now) }
    requires room { 784 ≤ vec_capacity text.old }
    ensures compared { AreCompared (L.told rack.old) (map plain_log views.now) result }
    ensures unchanged { AllStay (L.told rack.old) (L.told rack.new) }
    ensures keeps_on { IsTrue (L.keeps rack.old) → IsTrue (L.keeps rack.new) }
    ensures cause { HasCause (L.faults rack.old) (L.faults rack.new) (IsReadFault result) }
    ensures text { vec_capacity text.new ≡ vec_capacity text.old }
{
    for c in 0..views.len() {
        let client = c as u8;
        match check_log(rack, client, &views[c], text) {
            Ok(()) => {}
            Err(CheckFault::Failed) => return Some(Stop::LogFault(client)),
            Err(CheckFault::Changed(at)) => return Some(Stop::LogChanged(client, at)),
        }
    }
    None
}

/// The answer to the turn that found this.
fn turn_of(stop: Stop) -> Turn
    ensures { result ≡ recovering.turn_of stop }
{
    match stop {
        Stop::LogFault(client) => Turn::LogFault(client),
        Stop::LogChanged(client, at) => Turn::LogChanged(client, at),
    }
}

/// The first placement of what the logs say, which have one.
fn first_placement(alloc: Global, session: &Session, views: &[LogView]) -> Result<Placed, NoMemory>
    requires sound { IsSound (plan_of session.now) }
    requires few { length views.now ≤ 8 }
    requires read { AreReadable (map plain_log views.now) }
    requires there { HaveTheirPlaces (hot_cells (plan_of session.now)) (map plain_log views.now) }
    requires order { first_order (map plain_log views.now) (hot_cells (plan_of session.now)) ≢ None }
    ensures rows { IfOk result (λ placed. Some (plain_rows placed.placement) ≡ first_rows (map plain_log views.now) (hot_cells (plan_of session.now))) }
    ensures registers { IfOk result (λ placed. Some placed.registers ≡ first_registers (map plain_log views.now) (hot_cells (plan_of session.now))) }
{
    let first = session.hot_cells(alloc)?;
    match place_all(alloc, views, &first)? {
        Some(placed) => Ok(placed),
        None => unreachable!(),
    }
}

/// Gives the packets that no outcome answers their answers and their entries.
fn place_open(logs: &[ClientLog], rows: &[Slotted], pipeline: &mut Pipeline, history: &mut History)
    requires { CanPlace logs.now history.old.runs pipeline.old history.old.items (map plain_slotted rows.now) }
    ensures pipeline { pipeline.new ≡ with_answers pipeline.old (answers_in logs.now (map plain_slotted rows.now)) }
    ensures history { history.new.items ≡ with_rows logs.now (map plain_slotted rows.now) history.old.items }
    ensures runs { history.new.runs ≡ history.old.runs }
{
    for row in rows {
        if awaits(&logs[row.client as usize], row.seq) {
            pipeline.give_answer(row.client, row.number, &row.pairs);
            let stamp = Stamp {
                number: row.number,
                sub: 0,
            };
            history.insert(Entry {
                stamp,
                client: row.client,
                seq: row.seq,
            });
        }
    }
}

/// Whether an intent of the client's item with this number stands behind the answered ones.
fn awaits(log: &ClientLog, seq: u32) -> bool
    requires { length log.now.outcomes ≤ length log.now.intents }
    ensures { result ≡ recovering.awaits log.now seq }
{
    is_among(&log.intents()[log.outcomes().len()..], seq)
}

fn is_among(intents: &[Intent], seq: u32) -> bool
    ensures { result ≡ list_any (λ i. i.packet.seq == seq) intents.now }
{
    intents.iter().any(|intent| intent.packet.seq == seq)
}

/// Lets the clients wait whose packets are in their logs without what came of them.
fn resume_all(runners: &mut [Runner])
    ensures { runners.new ≡ map resumed_runner runners.old }
{
    for runner in runners.iter_mut() {
        resume(runner);
    }
}

fn resume(runner: &mut Runner)
    ensures { runner.new ≡ resumed_runner runner.old }
{
    if let Phase::Logged = runner.state.phase {
        runner.state.phase = Phase::Waiting;
    }
}
