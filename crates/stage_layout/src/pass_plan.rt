//! Pass plans: in which pass through the pipeline each hot operation of a script is executed.

ghost use Rattle.std.specs.Prelude.{◌≡◌, ℕ, ◌+◌, ◌≤◌, ◌<◌, ◌==◌, length, map, take, slice_index, slice_index_or, false, nat_lt, nat_le, if◌then◌else◌};
ghost use Rattle.std.specs.List.{list_any, AllByRecursion};
ghost use Rattle.txn_model.specs.Needs.{needs_list};
ghost use Rattle.stage_layout.specs.Regions.{region_of, halves_of};
ghost use Rattle.stage_layout.specs.Passes.{is_taken, are_met, least_pass, greatest, plan_of, PassesUpTo, NeedsBelow, NeedEarlier};

use crate::shape::Shape;
use std::marker::Model;
use txn_model::{Needs, Place};

/// The most hot operations of a plan, and so its most passes.
const MOST_PASSES: usize = 16;

/// A hot operation: where it is executed, and which earlier ones it needs, by their numbers among the
/// hot operations of its script.
#[derive(Clone, Copy, Debug, PartialEq, Eq)]
pub struct HotOp {
    pub place: Place,
    pub needs: Needs,
}

/// In which pass an operation is executed, counted from 1, and where.
#[derive(Clone, Copy, Debug, PartialEq, Eq)]
pub struct Step {
    pub pass: u8,
    pub place: Place,
}

impl Step {
    const NONE: Step = Step {
        pass: 0,
        place: Place {
            stage: 0,
            array: 0,
            cell: 0,
        },
    };

    /// The first pass in which the stage is reached after this step.
    fn first_pass_after(&self, stage: u8) -> u8
        requires { self.now.pass ≤ 16 }
        ensures { result ≡ (if nat_lt self.now.place.stage stage then self.now.pass else self.now.pass + 1) }
    {
        if self.place.stage < stage {
            self.pass
        } else {
            self.pass + 1
        }
    }
}

/// In which pass each hot operation of a script is executed, and which halves of the pipeline they touch.
#[derive(Clone, Copy, Debug)]
pub struct PassPlan {
    /// 0 behind the last operation.
    passes: [u8; MOST_PASSES],
    count: u8,
    halves: u8,
}

impl Model for PassPlan {
    ghost use Rattle.std.specs.Prelude.{◌≡◌, ◌-◌, ◌≤◌, ◌++◌, length, take, replicate};
    ghost use Rattle.stage_layout.specs.Passes.{Plan};

    ghost Value = { Plan };

    ghost use Rattle.stage_layout.specs.Padded.{IsPadded, inverse-view};

    ghost view = { λ p. record { passes = take p.count p.passes; halves = p.halves } };

    ghost inverse = { λ v. record { passes = v.passes ++ replicate (16 - length v.passes) 0; count = length v.passes; halves = v.halves } };

    ghost invariant = { IsPadded };

    ghost inverse_ok = { inverse-view };
}

impl PassPlan {
    /// How often a packet of this plan goes through the pipeline: the greatest pass of its operations.
    pub fn passes(&self) -> u8
        ensures { result ≡ greatest self.now.passes }
    {
        self.each().iter().fold(0, |most, &pass| most.max(pass))
    }

    /// The halves of the pipeline that its operations touch: 1 for left, 2 for right, 3 for both.
    pub fn halves(&self) -> u8
        ensures { result ≡ self.now.halves }
    {
        self.halves
    }

    /// The pass of an operation, counted from 1.
    pub fn pass(&self, i: u8) -> u8
        requires { i < length self.now.passes }
        ensures { result ≡ slice_index self.now.passes i }
    {
        self.passes[i as usize]
    }

    fn each(&self) -> &[u8]
        ensures { result.now ≡ self.now.passes }
    {
        &self.passes[..self.count as usize]
    }

    /// The plan with these passes.
    fn of(steps: &[Step], halves: u8) -> PassPlan
        requires { length steps.now ≤ 16 }
        ensures { result ≡ record { passes = map (λ step. step.pass) steps.now; halves = halves } }
    {
        let mut passes = [0; MOST_PASSES];
        for (i, step) in steps.iter().enumerate() {
            passes[i] = step.pass;
        }
        PassPlan {
            passes,
            count: steps.len() as u8,
            halves,
        }
    }
}

/// The plan of the hot operations of a script: each has the least pass, counted from 1, in which no
/// operation before it is on its register array, and by which all that it needs was executed, in an
/// earlier pass or at an earlier stage. It takes no memory.
pub fn plan(shape: &Shape, ops: &[HotOp]) -> PassPlan
    requires count { (1 ≤ length ops.now) × (length ops.now ≤ 16) }
    requires earlier { NeedEarlier 0 ops.now }
    requires stages { AllByRecursion (λ op. op.place.stage < shape.now.stages) ops.now }
    ensures value { result ≡ plan_of shape.now ops.now }
    ensures each { length result.passes ≡ length ops.now }
{
    let mut steps = [Step::NONE; MOST_PASSES];
    for (i, op) in ops.iter().enumerate() {
        let pass = least_pass(&steps[..i], op);
        steps[i] = Step {
            pass,
            place: op.place,
        };
    }
    PassPlan::of(&steps[..ops.len()], halves(shape, ops))
}

/// The halves that the operations touch.
fn halves(shape: &Shape, ops: &[HotOp]) -> u8
    ensures { result ≡ halves_of shape.now (map (λ op. op.place) ops.now) }
{
    u8::from(touch(shape, ops, 0)) + 2 * u8::from(touch(shape, ops, 1))
}

/// Whether one of the operations is at a stage of the region.
fn touch(shape: &Shape, ops: &[HotOp], region: u8) -> bool
    ensures { result ≡ list_any (λ op. region_of shape.now op.place.stage == region) ops.now }
{
    ops.iter().any(|op| shape.region(op.place.stage) == region)
}

/// The least pass of an operation behind those with these steps.
fn least_pass(steps: &[Step], op: &HotOp) -> u8
    requires few { length steps.now < 16 }
    requires passes { PassesUpTo (length steps.now) steps.now }
    requires earlier { NeedsBelow (length steps.now) (needs_list op.now.needs) }
    ensures { result ≡ least_pass steps.now op.now.place (needs_list op.now.needs) }
{
    let taken = taken_passes(steps, op.place);
    let mut pass = first_met(steps, op);
    while pass as usize <= steps.len() && taken[pass as usize] {
        pass += 1;
    }
    pass
}

/// In which passes one of the steps is on the place's register array.
fn taken_passes(steps: &[Step], place: Place) -> [bool; MOST_PASSES + 1]
    requires { PassesUpTo 16 steps.now }
    ensures { (p : ℕ) → p ≤ 16 → slice_index_or result p false ≡ is_taken steps.now place p }
{
    let mut taken = [false; MOST_PASSES + 1];
    for step in steps {
        if step.place.stage == place.stage && step.place.array == place.array {
            taken[step.pass as usize] = true;
        }
    }
    taken
}

/// The first pass by which all that the operation needs was executed.
fn first_met(steps: &[Step], op: &HotOp) -> u8
    requires few { length steps.now < 16 }
    requires passes { PassesUpTo (length steps.now) steps.now }
    requires earlier { NeedsBelow (length steps.now) (needs_list op.now.needs) }
    ensures range { (1 ≤ result) × (result ≤ length steps.now + 1) }
    ensures first { (p : ℕ) → 1 ≤ p → are_met steps.now (needs_list op.now.needs) p op.now.place.stage ≡ nat_le result p }
{
    let mut first = 1;
    for i in 0..op.needs.len() {
        let needed = &steps[op.needs.get(i).from as usize];
        first = first.max(needed.first_pass_after(op.place.stage));
    }
    first
}
