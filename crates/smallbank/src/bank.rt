//! Sessions of SmallBank transactions.

ghost use Rattle.std.specs.Prelude.{◌≡◌, ◌≢◌, ◌<◌, IfOk};
ghost use Rattle.catalogue.specs.LoadPlans.{IsBankPlan};
ghost use Rattle.catalogue.specs.PlanOf.{plan_of};
ghost use Rattle.catalogue.specs.Sound.{IsSound};
ghost use Rattle.schedule.specs.Dice.{words_of};
ghost use Rattle.load_base.specs.Load.{IsFitFor};
ghost use Rattle.smallbank.specs.Bank as spec;
ghost use Rattle.smallbank.specs.Bank.{bank_load, bank_size};

use crate::scripts::{
    amalgamate, balance, deposit_checking, send_payment, transact_savings, write_check,
};
use catalogue::{BankPlan, Session};
use load_base::{Load, Size, load_session};
use schedule::Dice;
use std::alloc::Global;
use std::marker::Model;
use txn_model::{NoMemory, Script};

/// What every account holds at first.
const FIRST_VALUE: i64 = 1000;

/// Which script it is.
#[derive(Clone, Copy)]
enum Kind {
    Balance,
    DepositChecking,
    TransactSavings,
    Amalgamate,
    WriteCheck,
    SendPayment,
}

/// The kind that a number below 100 stands for.
fn kind_at(number: u32) -> Kind
    ensures { result ≡ spec.kind_at number }
{
    match number {
        0..=14 => Kind::Balance,
        15..=29 => Kind::DepositChecking,
        30..=44 => Kind::TransactSavings,
        45..=59 => Kind::Amalgamate,
        60..=74 => Kind::WriteCheck,
        _ => Kind::SendPayment,
    }
}

/// 1 to 100.
fn amount(dice: &mut Dice) -> i64
    ensures { (result, words_of dice.new) ≡ spec.amount (words_of dice.old) }
{
    1 + i64::from(dice.draw(100))
}

fn customer(plan: &BankPlan, dice: &mut Dice) -> u32
    requires { IsBankPlan plan.now }
    ensures value { (result, words_of dice.new) ≡ spec.customer plan.now (words_of dice.old) }
    ensures bound { result < plan.now.customers }
{
    dice.key(plan.customers, plan.hot, plan.share)
}

/// A customer other than the first one.
fn other_customer(plan: &BankPlan, first: u32, dice: &mut Dice) -> u32
    requires plan { IsBankPlan plan.now }
    requires first { first < plan.now.customers }
    ensures value { (result, words_of dice.new) ≡ spec.other_customer plan.now first (words_of dice.old) }
    ensures bound { result < plan.now.customers }
    ensures other { first ≢ result }
{
    let second = customer(plan, dice);
    if second == first {
        (first + 1) % plan.customers
    } else {
        second
    }
}

/// A script of this kind, whose first customer was drawn already.
fn script_of(
    alloc: Global,
    plan: &BankPlan,
    kind: Kind,
    first: u32,
    dice: &mut Dice,
) -> Result<Script, NoMemory>
    requires plan { IsBankPlan plan.now }
    requires first { first < plan.now.customers }
    ensures drawn { IfOk result (λ drawn. (drawn.items, words_of dice.new) ≡ spec.script_of plan.now kind first (words_of dice.old)) }
    ensures fit { IfOk result (λ drawn. IsFitFor (bank_size plan.now) drawn.items) }
{
    match kind {
        Kind::Balance => balance(alloc, first),
        Kind::DepositChecking => deposit_checking(alloc, first, amount(dice)),
        Kind::TransactSavings => transact_savings(alloc, first, amount(dice)),
        Kind::Amalgamate => amalgamate(alloc, first, other_customer(plan, first, dice)),
        Kind::WriteCheck => write_check(alloc, first, amount(dice)),
        Kind::SendPayment => {
            let second = other_customer(plan, first, dice);
            send_payment(alloc, first, second, amount(dice))
        }
    }
}

/// A plan in its ranges.
#[derive(Drop)]
struct BankLoad {
    plan: BankPlan,
}

impl Model for BankLoad {
    ghost use Rattle.catalogue.specs.LoadPlans.{IsBankPlan};
    ghost use Rattle.catalogue.specs.declared.load.BankPlan.{BankPlan};

    ghost Value = { BankPlan };

    ghost view = { λ load. load.plan };

    ghost invariant = { λ load. IsBankPlan load.plan };
}

impl Load for BankLoad {
    ghost use Rattle.smallbank.specs.Bank.{bank_size, bank_script};

    ghost size = { bank_size };

    ghost script = { bank_script };

    fn size(&self) -> Size {
        Size {
            number: self.plan.number,
            clients: self.plan.clients,
            scripts: self.plan.scripts,
            tuples: 2 * self.plan.customers,
            hot: 2 * self.plan.hot,
            value: FIRST_VALUE,
        }
    }

    fn draw(&self, alloc: Global, dice: &mut Dice) -> Result<Script, NoMemory> {
        let kind = kind_at(dice.draw(100));
        let first = customer(&self.plan, dice);
        script_of(alloc, &self.plan, kind, first, dice)
    }
}

/// The session of the plan. It is sound.
pub fn bank_session(alloc: Global, plan: &BankPlan) -> Result<Session, NoMemory>
    requires { IsBankPlan plan.now }
    ensures session { IfOk result (λ session. plan_of session ≡ bank_load plan.now) }
    ensures sound { IfOk result (λ session. IsSound (plan_of session)) }
{
    load_session(alloc, &BankLoad { plan: *plan })
}
