//! SmallBank: six scripts on the savings and checking accounts of customers, and sessions in which they are drawn.
//!
//! Customer `c` has savings in tuple `2c` and checking in tuple `2c + 1`. This crate knows nothing of how a run goes.
#![tactic(auto)]

mod bank;
mod laws;
mod scripts;

pub use bank::bank_session;
pub use laws::{
    amalgamate_keeps_the_total, balance_keeps_the_total, deposit_checking_adds_the_amount,
    send_payment_keeps_the_total, transact_savings_adds_the_amount, write_check_takes_the_amount,
};
pub use scripts::{
    amalgamate, balance, deposit_checking, send_payment, transact_savings, write_check,
};

#[cfg(test)]
mod tests;
