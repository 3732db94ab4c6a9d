//! By how much the scripts change the total of all tuples, over the definitions alone.

ghost use Rattle.smallbank.specs.TotalLaws.{BalanceKeepsTotal, DepositCheckingAddsAmount, TransactSavingsAddsAmount, AmalgamateKeepsTotal, WriteCheckTakesAmount, SendPaymentKeepsTotal};

/// A balance leaves the total as it is.
pub fn balance_keeps_the_total()
    ensures { BalanceKeepsTotal }
{}

/// A deposit adds its amount to the total.
pub fn deposit_checking_adds_the_amount()
    ensures { DepositCheckingAddsAmount }
{}

/// A transaction on savings adds its amount, where the savings are at least its opposite.
pub fn transact_savings_adds_the_amount()
    ensures { TransactSavingsAddsAmount }
{}

/// What one customer loses the other gets.
pub fn amalgamate_keeps_the_total()
    ensures { AmalgamateKeepsTotal }
{}

/// A check takes its amount, and one more where savings and checking together are less.
pub fn write_check_takes_the_amount()
    ensures { WriteCheckTakesAmount }
{}

/// What one customer pays the other gets.
pub fn send_payment_keeps_the_total()
    ensures { SendPaymentKeepsTotal }
{}
