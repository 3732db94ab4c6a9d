//! The pipeline.

ghost use Rattle.std.specs.Prelude.{◌≡◌, ◌≤◌, ◌<◌, ℕ, length, Some, None, IfOk, IsSome, IsTrue, if◌then◌else◌, slice_index_or, unwrap_or};
ghost use Rattle.std.specs.Option.{option_map};
ghost use Rattle.std.specs.FinMap.{get, find};
ghost use Rattle.std.specs.List.{AllByRecursion};
ghost use Rattle.txn_model.specs.Places.{place_cmp};
ghost use Rattle.txn_model.specs.declared.place.Place.{Place};
ghost use Rattle.stage_layout.specs.Layout.{first_cells, layout_fault};
ghost use Rattle.stage_layout.specs.Shape.{has_place};
ghost use Rattle.switch_packet.specs.PacketText.{packet_text};
ghost use Rattle.switch_packet.specs.Packets.{PlainPacket};
ghost use Rattle.switch_packet.specs.Ranges.{IsPacket};
ghost use Rattle.switch_packet.specs.Replay.{register_at};
ghost use Rattle.pipeline_locks.specs.Holders.{without};
ghost use Rattle.pipeline.specs.Keeps.{AreStages};
ghost use Rattle.pipeline.specs.Seating.{vacated, AreEmpty, AreFresh, AreVacant};
ghost use Rattle.pipeline.specs.Seats.{stage_at, seat_at, number_in, cleared};

use crate::seat::{Seat, Spot};
use crate::step::Step;
use pipeline_locks::{Admission, Halves};
use register_stage::Stage;
use stage_layout::{Layout, Shape};
use std::alloc::Global;
use std::marker::Model;
use txn_model::{NoMemory, Pairs, Place, PlaceMap, TupleMap};

/// The registers of a switch, and the packets of so many clients on their way through its stages. All room is
/// taken when it is made.
#[derive(Debug, Drop)]
pub struct Pipeline {
    shape: Shape,
    stages: Vec<Stage>,
    /// For each stage the client whose packet stands in its slot.
    slots: Vec<Option<u8>>,
    /// For each client what it has under way.
    seats: Vec<Seat>,
    halves: Halves,
    next: u64,
}

impl Model for Pipeline {
    ghost use Rattle.pipeline.specs.Plain.{PlainPipeline};

    ghost Value = { PlainPipeline };

    ghost use Rattle.std.specs.Coded.{codes};
    ghost use Rattle.txn_model.specs.Places.{places_code};

    ghost coded = { Prim.hlevel (codes, places_code) };

    ghost use Rattle.pipeline.specs.Inside.{seen};

    ghost view = { seen };

    ghost use Rattle.pipeline.specs.Keeps.{Keeps};

    ghost invariant = { λ a. Keeps a.shape a.stages.items a.slots.items a.seats.items };
}

impl Pipeline {
    ghost use Rattle.pipeline.specs.Planned.{IsPosting};
    ghost use Rattle.pipeline.specs.Plain.{PlainFlight};
    ghost use Rattle.pipeline.specs.Rows.{in_slot, waiting_of, box_of, IsVacant, IsStep, fresh_pipeline, erased, restored, posted, has_free_first_slot, first_entered, later_entry, entered, may_leave, with_slot, gone_on, advanced, dropped, given_answer};
    ghost use Rattle.pipeline.specs.Walks.{IsAt, with_executed};

    /// The pipeline of a switch with these tuples in its registers, and nothing under way. The next number is 1.
    pub fn fresh(
        alloc: Global,
        shape: &Shape,
        layout: &Layout,
        tuples: &TupleMap,
        clients: u8,
    ) -> Result<Pipeline, NoMemory>
        requires { layout_fault shape.now tuples.now layout.now ≡ None }
        ensures { IfOk result (λ made. made ≡ fresh_pipeline shape.now (first_cells tuples.now layout.now) clients) }
    {
        let mut pipeline = Pipeline {
            shape: *shape,
            stages: fresh_stages(alloc, shape)?,
            slots: empty_slots(alloc, shape.stages)?,
            seats: vacant_seats(alloc, clients)?,
            halves: Halves::free(),
            next: 1,
        };
        pipeline.restore(&layout.first_cells(alloc, tuples)?, 1);
        Ok(pipeline)
    }

    /// Puts a packet at the port: its text, of which the passes and the halves are those of the pass plan of its
    /// operations, and which is one of this client. The client has no packet and no answer. It takes no memory.
    pub fn post(&mut self, client: u8, bytes: &[u8])
        requires { IsPosting self.old client bytes.now }
        ensures { (packet : PlainPacket)
            → IsPacket packet → bytes.now ≡ packet_text packet → self.new ≡ posted self.old client packet }
    {
        let seat = &mut self.seats[client as usize];
        seat.post(bytes);
    }

    /// Lets the client's packet enter for the pass that it waits for. Idle exactly where none waits, slot 0 is
    /// taken, or, for the first pass, a half that it touches is held. For its first pass it gets the next number,
    /// and with two or more passes it takes the halves; for its last pass it gives them back. It takes no memory.
    #[inline(always)]
    pub fn enter(&mut self, client: u8) -> Step
        ensures { IsStep (entered self.old client) self.old self.new result }
    {
        let Some(pass) = self.waits_for(client) else {
            return Step::Idle;
        };
        if !self.has_free_first_slot() {
            return Step::Idle;
        }
        if pass == 1 {
            return self.enter_first(client);
        }
        self.enter_again(client);
        Step::Moved
    }

    /// Lets the packet leave the slot of a stage: its operations of this pass there are executed in order, and it
    /// goes to the next slot, or from the last stage to the port for its next pass, or into its client's box. Idle
    /// exactly where the slot is empty, or the next one is taken. It takes no memory.
    #[inline(always)]
    pub fn advance(&mut self, stage: u8) -> Step
        ensures { IsStep (advanced self.old stage) self.old self.new result }
    {
        let Some(client) = self.slot(stage) else {
            return Step::Idle;
        };
        if !self.may_leave(stage) {
            return Step::Idle;
        }
        self.execute(stage, client);
        self.leave(stage, client);
        Step::Moved
    }

    /// The number of the answer in the client's box; None exactly where the box is empty.
    pub fn answer_number(&self, client: u8) -> Option<u64>
        ensures { result ≡ option_map (λ box. box.number) (box_of self.now client) }
    {
        let seat = self.seats.get(client as usize)?;
        match seat.spot {
            Spot::InBox => Some(seat.flight.number),
            _ => None,
        }
    }

    /// The pairs of the answer in the client's box, which isn't empty: one per operation of the packet.
    pub fn answer_pairs(&self, client: u8) -> &Pairs
        requires { IsSome (box_of self.now client) }
        ensures { option_map (λ box. box.pairs) (box_of self.now client) ≡ Some result.now.items }
    {
        &self.seats[client as usize].flight.pairs
    }

    /// Empties the client's box, which isn't empty. It takes no memory.
    pub fn drop_answer(&mut self, client: u8)
        requires { IsSome (box_of self.old client) }
        ensures { self.new ≡ dropped self.old client }
    {
        let seat = &mut self.seats[client as usize];
        seat.spot = Spot::Vacant;
    }

    /// The number that the next packet gets at its first entry, counted from 1. Behind the last number of 64 bits
    /// comes 0.
    pub fn next_number(&self) -> u64
        ensures { result ≡ self.now.next }
    {
        self.next
    }

    /// The number in the register at a place of the switch.
    pub fn register(&self, place: Place) -> i64
        requires { IsTrue (has_place self.now.shape place) }
        ensures { result ≡ register_at self.now.registers place }
    {
        self.stages[place.stage as usize].cell(place.array, place.cell)
    }

    /// The client whose packet stands in the slot of a stage; None exactly where the slot is empty or there is no
    /// such stage.
    pub fn slot(&self, stage: u8) -> Option<u8>
        ensures { result ≡ option_map (λ flight. flight.packet.client) (in_slot self.now stage) }
    {
        *self.slots.get(stage as usize)?
    }

    /// The pass for which the client's packet waits at the port; None exactly where none waits.
    pub fn waits_for(&self, client: u8) -> Option<u8>
        ensures { result ≡ option_map (λ flight. flight.pass) (waiting_of self.now client) }
    {
        let seat = self.seats.get(client as usize)?;
        match seat.spot {
            Spot::AtPort => Some(seat.flight.pass),
            _ => None,
        }
    }

    /// Loses everything: registers 0, no packet, no answer, no half held, and the next number 1. It takes no memory.
    pub fn erase(&mut self)
        ensures { self.new ≡ erased self.old }
    {
        clear_stages(self.stages.as_mut_slice());
        clear_slots(self.slots.as_mut_slice());
        vacate_seats(self.seats.as_mut_slice());
        self.halves = Halves::free();
        self.next = 1;
    }

    /// Gives an erased pipeline these numbers in its registers, 0 where there is none, and this next number. It
    /// takes no memory.
    pub fn restore(&mut self, registers: &PlaceMap, next: u64)
        requires erased { self.old ≡ erased self.old }
        requires places { (place : Place) → IsSome (get registers.now place) → IsTrue (has_place self.old.shape place) }
        ensures { self.new ≡ restored self.old registers.now next }
    {
        write_rows(&self.shape, self.stages.as_mut_slice(), registers.rows());
        self.next = next;
    }

    /// Puts an answer of at most 16 pairs into the client's box. The client has no packet and no answer. It takes no
    /// memory.
    pub fn give_answer(&mut self, client: u8, number: u64, pairs: &Pairs)
        requires there { client < length self.old.waiting }
        requires vacant { IsVacant self.old client }
        requires few { length pairs.now.items ≤ 16 }
        ensures { self.new ≡ given_answer self.old client number pairs.now.items }
    {
        let seat = &mut self.seats[client as usize];
        seat.put_answer(number, pairs);
    }

    /// Whether there is a slot 0 and it is empty.
    fn has_free_first_slot(&self) -> bool
        ensures { result ≡ has_free_first_slot self.now }
    {
        matches!(self.slots.first(), Some(None))
    }

    /// Lets the client's packet enter slot 0 for its first pass. Idle where a half that it touches is held.
    #[inline(never)]
    fn enter_first(&mut self, client: u8) -> Step
        requires waits { IsSome (waiting_of self.old client) }
        requires free { IsTrue (has_free_first_slot self.old) }
        ensures { (flight : PlainFlight) → waiting_of self.old client ≡ Some flight
            → IsStep (first_entered self.old client flight) self.old self.new result }
    {
        let seat = &mut self.seats[client as usize];
        let halves = seat.flight.packet.halves;
        let passes = seat.flight.packet.passes;
        if let Admission::Taken(_) = self.halves.try_enter(halves, passes, client) {
            return Step::Idle;
        }
        seat.enter(self.next);
        self.next = self.next.wrapping_add(1);
        self.slots[0] = Some(client);
        Step::Moved
    }

    /// Lets the client's packet enter slot 0 for a later pass.
    #[inline(never)]
    fn enter_again(&mut self, client: u8)
        requires waits { IsSome (waiting_of self.old client) }
        requires free { IsTrue (has_free_first_slot self.old) }
        ensures { (flight : PlainFlight) → waiting_of self.old client ≡ Some flight
            → self.new ≡ later_entry self.old client flight }
    {
        let seat = &mut self.seats[client as usize];
        let flight = &seat.flight;
        leave_halves(
            &mut self.halves,
            client,
            flight.pass == flight.packet.passes,
        );
        let number = flight.number;
        seat.enter(number);
        self.slots[0] = Some(client);
    }

    /// Whether the packet in the slot of a stage can leave it.
    fn may_leave(&self, stage: u8) -> bool
        requires { stage < length self.now.slots }
        ensures { result ≡ may_leave self.now stage }
    {
        self.shape.stages == stage + 1 || self.slots[stage as usize + 1].is_none()
    }

    /// Executes the operations of the client's packet that are due at the stage in whose slot it stands.
    #[inline(never)]
    fn execute(&mut self, stage: u8, client: u8)
        requires { IsAt self.old stage client }
        ensures { (flight : PlainFlight) → in_slot self.old stage ≡ Some flight
            → self.new ≡ with_executed self.old stage flight }
    {
        let seat = &mut self.seats[client as usize];
        if seat.is_due(stage) {
            self.stages[stage as usize].visit(&mut seat.flight);
        }
    }

    /// Lets the client's packet leave the slot of a stage, whose operations it has executed.
    fn leave(&mut self, stage: u8, client: u8)
        requires there { IsAt self.old stage client }
        requires may { IsTrue (may_leave self.old stage) }
        ensures { (flight : PlainFlight) → in_slot self.old stage ≡ Some flight
            → self.new ≡ gone_on (with_slot self.old stage None) stage flight }
    {
        let seat = &mut self.seats[client as usize];
        self.slots[stage as usize] = None;
        if stage + 1 == self.shape.stages {
            seat.come_through();
        } else {
            seat.spot = Spot::InSlot(stage + 1);
            self.slots[stage as usize + 1] = Some(client);
        }
    }
}

/// Takes the halves from the client where this is its packet's last pass.
fn leave_halves(halves: &mut Halves, client: u8, is_last: bool)
    ensures { halves.new ≡ (if is_last then without client halves.old else halves.old) }
{
    if is_last {
        halves.leave(client);
    }
}

/// All stages of the switch, with 0 in every register.
fn fresh_stages(alloc: Global, shape: &Shape) -> Result<Vec<Stage>, NoMemory>
    ensures { IfOk result (λ stages. AreFresh shape.now shape.now.stages stages.items) }
{
    let mut stages = Vec::with_capacity(alloc, shape.stages as usize)?;
    for stage in 0..shape.stages {
        stages.push(Stage::fresh(alloc, stage, shape.arrays, shape.cells)?)?;
    }
    Ok(stages)
}

/// So many empty slots.
fn empty_slots(alloc: Global, stages: u8) -> Result<Vec<Option<u8>>, NoMemory>
    ensures { IfOk result (λ slots. AreEmpty stages slots.items) }
{
    let mut slots = Vec::with_capacity(alloc, stages as usize)?;
    for _stage in 0..stages {
        slots.push(None)?;
    }
    Ok(slots)
}

/// Seats for so many clients, with nothing under way.
fn vacant_seats(alloc: Global, clients: u8) -> Result<Vec<Seat>, NoMemory>
    ensures { IfOk result (λ seats. AreVacant clients seats.items) }
{
    let mut seats = Vec::with_capacity(alloc, clients as usize)?;
    for _client in 0..clients {
        seats.push(Seat::vacant(alloc)?)?;
    }
    Ok(seats)
}

/// Writes 0 into every register.
fn clear_stages(stages: &mut [Stage])
    ensures { (x : ℕ) → x < length stages.old → stage_at stages.new x ≡ cleared (stage_at stages.old x) }
{
    for stage in stages.iter_mut() {
        stage.clear();
    }
}

/// Empties all slots.
fn clear_slots(slots: &mut [Option<u8>])
    ensures { (x : ℕ) → slice_index_or slots.new x None ≡ None }
{
    for slot in slots.iter_mut() {
        *slot = None;
    }
}

/// Takes packets and answers from all seats.
fn vacate_seats(seats: &mut [Seat])
    ensures { (c : ℕ) → c < length seats.old → seat_at seats.new c ≡ vacated (seat_at seats.old c) }
{
    for seat in seats.iter_mut() {
        seat.spot = Spot::Vacant;
    }
}

/// Writes these numbers into the registers at their places. Of several rows of one place the first counts.
fn write_rows(shape: &Shape, stages: &mut [Stage], rows: &[(Place, i64)])
    requires stages { AreStages shape.now stages.old }
    requires places { AllByRecursion (λ row. IsTrue (has_place shape.now row.0)) rows.now }
    ensures stages { AreStages shape.now stages.new }
    ensures numbers { (place : Place) → IsTrue (has_place shape.now place)
        → number_in stages.new place ≡ unwrap_or (find place_cmp place rows.now) (number_in stages.old place) }
{
    for i in (0..rows.len()).rev() {
        let (place, number) = rows[i];
        stages[place.stage as usize].set_cell(place.array, place.cell, number);
    }
}
