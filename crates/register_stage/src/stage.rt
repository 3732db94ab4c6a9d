//! One stage of the switch.

ghost use Rattle.std.specs.Prelude.{◌≡◌, ◌<◌, ◌*◌, ◌+◌, [], length, take, pos, IsSome, IsTrue, Some, IfOk, slice_set};
ghost use Rattle.std.specs.FinMap.{get, insert};
ghost use Rattle.register_stage.specs.Registers.{place_in, full_map, renumbered};

use crate::flight::Flight;
use std::alloc::Global;
use std::marker::Model;
use switch_packet::PacketOp;
use txn_model::{NoMemory, Pair, Pairs, effect, operand};

/// The registers of one stage: so many arrays of so many cells, each with one number. A cell is read and
/// written in constant time.
#[derive(Debug, Drop)]
pub struct Stage {
    stage: u8,
    arrays: u8,
    cells: u16,
    /// Cell c of array a stands at `a * cells + c`.
    numbers: Vec<i64>,
}

impl Model for Stage {
    ghost use Rattle.std.specs.Prelude.{◌≡◌, ◌*◌, length};
    ghost use Rattle.register_stage.specs.Registers.{Registers, registers_code, full_map};
    ghost use Rattle.register_stage.specs.Flat.{number_at};

    ghost Value = { Registers };

    ghost coded = { registers_code };

    ghost view = { λ a. record { stage = a.stage; numbers = full_map a.stage (number_at a.cells a.numbers.items) a.arrays a.cells } };

    ghost invariant = { λ a. length a.numbers.items ≡ a.arrays * a.cells };
}

impl Stage {
    ghost use Rattle.switch_packet.specs.Replay.{register_at, packet_pair};
    ghost use Rattle.register_stage.specs.Registers.{is_due};
    ghost use Rattle.register_stage.specs.Visits.{CanExecute, CanVisit, visited};

    /// The stage with this number, counted from 0. All its cells are 0.
    pub fn fresh(alloc: Global, stage: u8, arrays: u8, cells: u16) -> Result<Stage, NoMemory>
        ensures { IfOk result (λ made. made ≡ record { stage = stage; numbers = full_map stage (λ _. pos 0) arrays cells }) }
    {
        Ok(Stage {
            stage,
            arrays,
            cells,
            numbers: vec![in alloc; 0; arrays as usize * cells as usize]?,
        })
    }

    /// The number in a cell that is there.
    pub fn cell(&self, array: u8, cell: u16) -> i64
        requires there { IsSome (get self.now.numbers (place_in self.now.stage array cell)) }
        ensures { get self.now.numbers (place_in self.now.stage array cell) ≡ Some result }
    {
        self.numbers[array as usize * self.cells as usize + cell as usize]
    }

    /// Writes a number into a cell that is there.
    pub fn set_cell(&mut self, array: u8, cell: u16, value: i64)
        requires there { IsSome (get self.old.numbers (place_in self.old.stage array cell)) }
        ensures { self.new ≡ record self.old { numbers = insert self.old.numbers (place_in self.old.stage array cell) value } }
    {
        self.numbers[array as usize * self.cells as usize + cell as usize] = value;
    }

    /// Writes 0 into every cell.
    pub fn clear(&mut self)
        ensures { self.new ≡ record self.old { numbers = renumbered (λ _. pos 0) self.old.numbers } }
    {
        self.numbers.fill(0);
    }

    /// Executes in order the operations of the packet that are at this stage in the flight's pass: each
    /// takes its needs from the flight's pairs, and leaves its own pair there. It looks at each operation
    /// of the packet once.
    pub fn visit(&mut self, flight: &mut Flight)
        requires { CanVisit self.old flight.old }
        ensures numbers { self.new ≡ record self.old { numbers = (visited self.old flight.old).after } }
        ensures pairs { flight.new.pairs.items ≡ (visited self.old flight.old).pairs }
        ensures kept { flight.new ≡ record flight.old { pairs = flight.new.pairs } }
        ensures spare { flight.new.pairs.spare ≡ flight.old.pairs.spare }
    {
        let Flight {
            packet,
            pairs,
            pass,
            ..
        } = flight;
        for i in 0..pairs.len() {
            let op = packet.ops.get(i as usize);
            if self.is_due(op, *pass) {
                self.execute(i, op, pairs);
            }
        }
    }

    fn is_due(&self, op: &PacketOp, pass: u8) -> bool
        ensures { result ≡ is_due self.now.stage pass op.now }
    {
        op.pass == pass && op.place.stage == self.stage
    }

    /// Executes operation `i` of a packet, and puts its pair among the packet's.
    fn execute(&mut self, i: u8, op: &PacketOp, pairs: &mut Pairs)
        requires can { CanExecute self.old.numbers i op.now }
        requires here { op.now.place.stage ≡ self.old.stage }
        requires paired { i < length pairs.old.items }
        ensures numbers { self.new ≡ record self.old {
          numbers = insert self.old.numbers op.now.place
              (packet_pair op.now (take i pairs.old.items) (register_at self.old.numbers op.now.place)).now;
        } }
        ensures pairs { pairs.new.items ≡ slice_set pairs.old.items i
            (packet_pair op.now (take i pairs.old.items) (register_at self.old.numbers op.now.place)) }
        ensures spare { pairs.new.spare ≡ pairs.old.spare }
    {
        let was = self.cell(op.place.array, op.place.cell);
        let now = effect(&op.act, was, operand(&op.needs, op.bias, pairs));
        self.set_cell(op.place.array, op.place.cell, now);
        pairs.set(i, Pair { was, now });
    }
}
