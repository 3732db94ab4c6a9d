//! The six scripts.

ghost use Rattle.std.specs.Prelude.{◌≡◌, ◌≤◌, length, IfOk};
ghost use Rattle.smallbank.specs.Scripts as spec;
ghost use Rattle.smallbank.specs.Scripts.{IsCustomer};

use std::alloc::Global;
use txn_model::{Act, Need, Needs, NoMemory, Op, Script, TupleId, Which, minus};

fn savings(customer: u32) -> TupleId
    requires { IsCustomer customer }
    ensures { result ≡ spec.savings customer }
{
    TupleId(2 * customer)
}

fn checking(customer: u32) -> TupleId
    requires { IsCustomer customer }
    ensures { result ≡ spec.checking customer }
{
    TupleId(2 * customer + 1)
}

/// What operation `from` found.
fn old(from: u8) -> Need
    ensures { result ≡ spec.old from }
{
    Need {
        from,
        which: Which::Old,
    }
}

/// By how much operation `from` lowered what it found.
fn moved(from: u8) -> Need
    ensures { result ≡ spec.moved from }
{
    Need {
        from,
        which: Which::Moved,
    }
}

fn needing(needs: &[Need], tuple: TupleId, act: Act) -> Op
    requires { length needs.now ≤ 4 }
    ensures { result ≡ spec.needing needs.now tuple act }
{
    Op {
        tuple,
        act,
        needs: Needs::of(needs),
    }
}

/// An operation without needs.
fn alone(tuple: TupleId, act: Act) -> Op
    ensures { result ≡ spec.alone tuple act }
{
    needing(&[], tuple, act)
}

fn opposite(amount: i64) -> i64
    ensures { result ≡ spec.opposite amount }
{
    minus(0, amount)
}

fn opposite_less_one(amount: i64) -> i64
    ensures { result ≡ spec.opposite_less_one amount }
{
    minus(opposite(amount), 1)
}

fn script(alloc: Global, ops: &[Op]) -> Result<Script, NoMemory>
    ensures { IfOk result (λ script. script.items ≡ ops.now) }
{
    Ok(Script::of(Vec::from_slice(alloc, ops)?))
}

/// Reads both accounts.
pub fn balance(alloc: Global, customer: u32) -> Result<Script, NoMemory>
    requires { IsCustomer customer }
    ensures { IfOk result (λ script. script.items ≡ spec.balance customer) }
{
    script(
        alloc,
        &[
            alone(savings(customer), Act::Read),
            alone(checking(customer), Act::Read),
        ],
    )
}

/// Adds the amount to checking.
pub fn deposit_checking(alloc: Global, customer: u32, amount: i64) -> Result<Script, NoMemory>
    requires { IsCustomer customer }
    ensures { IfOk result (λ script. script.items ≡ spec.deposit_checking customer amount) }
{
    script(
        alloc,
        &[alone(checking(customer), Act::Add { base: amount })],
    )
}

/// Adds the amount to savings, where they are at least its opposite.
pub fn transact_savings(alloc: Global, customer: u32, amount: i64) -> Result<Script, NoMemory>
    requires { IsCustomer customer }
    ensures { IfOk result (λ script. script.items ≡ spec.transact_savings customer amount) }
{
    let act = Act::Choose {
        limit: opposite(amount),
        above: amount,
        below: 0,
    };
    script(alloc, &[alone(savings(customer), act)])
}

/// Moves both accounts of one customer into the checking of another.
pub fn amalgamate(alloc: Global, from: u32, to: u32) -> Result<Script, NoMemory>
    requires from { IsCustomer from }
    requires to { IsCustomer to }
    ensures { IfOk result (λ script. script.items ≡ spec.amalgamate from to) }
{
    script(
        alloc,
        &[
            alone(savings(from), Act::Put { base: 0 }),
            alone(checking(from), Act::Put { base: 0 }),
            needing(&[moved(0), moved(1)], checking(to), Act::Add { base: 0 }),
        ],
    )
}

/// Takes the amount from checking, and one more where savings and checking together are less.
pub fn write_check(alloc: Global, customer: u32, amount: i64) -> Result<Script, NoMemory>
    requires { IsCustomer customer }
    ensures { IfOk result (λ script. script.items ≡ spec.write_check customer amount) }
{
    let act = Act::Choose {
        limit: amount,
        above: opposite(amount),
        below: opposite_less_one(amount),
    };
    script(
        alloc,
        &[
            alone(savings(customer), Act::Read),
            needing(&[old(0)], checking(customer), act),
        ],
    )
}

/// Moves the amount from one checking to another, where the first has as much.
pub fn send_payment(alloc: Global, from: u32, to: u32, amount: i64) -> Result<Script, NoMemory>
    requires from { IsCustomer from }
    requires to { IsCustomer to }
    ensures { IfOk result (λ script. script.items ≡ spec.send_payment from to amount) }
{
    let act = Act::Choose {
        limit: amount,
        above: opposite(amount),
        below: 0,
    };
    script(
        alloc,
        &[
            alone(checking(from), act),
            needing(&[moved(0)], checking(to), Act::Add { base: 0 }),
        ],
    )
}
