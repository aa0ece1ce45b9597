//! The accounts and days of statements, and trades of an account with its statement after them.

use crate::desks::Step;
use brk_money::{Day, Id, parse_day};
use std::test::Fail;

/// An account and the first and the last day of its statement, both included.
#[derive(Clone, Copy)]
pub struct Asked {
    pub account: Id,
    pub from: Day,
    pub to: Day,
}

/// Returns the account and the days of a statement from the number of the account and the texts of
/// the days. Fails if the number is not within the limits of an id or a text is malformed. Does not
/// check the order of the days.
pub fn account_and_days(account: u64, from: &str, to: &str) -> Result<Asked, Fail> {
    let days = (parse_day(from.as_bytes()), parse_day(to.as_bytes()));
    match (Id::new(account), days) {
        (Some(account), (Some(from), Some(to))) => Ok(Asked { account, from, to }),
        _ => Err("an account or a day")?,
    }
}

/// Two purchases and a sale of a part.
pub const BOUGHT: Step = Step {
    batch: b"batch,T\n\
        order,100,TMB,ABC,100,,cash,fifo,Ann,Lee,T10\n\
        result,1,10.10\n\
        order,100,TMB,ABC,200,,cash,fifo,Ann,Lee,T10\n\
        result,2,12.00\n\
        order,100,TMS,ABC,150,,cash,fifo,Ann,Lee,T10\n\
        result,3,13.00\n\
        end,6\n",
    lines: "1,ok,1709251200016,1,SBMT,10.00,0.00,0.00,0.00,10.00,5.00,10000.00\n\
        2,ok,1709251200017,10.10,0.00,-1025.10,2024-03-03,0.00,0.00,8974.90\n\
        3,ok,1709251200018,2,SBMT,10.00,0.00,0.00,0.00,20.00,5.00,9974.90\n\
        4,ok,1709251200019,24.00,0.00,-2429.00,2024-03-03,0.00,0.00,6545.90\n\
        5,ok,1709251200020,3,SBMT,10.00,1610.00,1500.00,0.00,15.00,5.00,9545.90\n\
        6,ok,1709251200021,19.50,68.00,1857.50,2024-03-03,1610.00,1950.00,8403.40\n\
        end,6,0,0\n",
};

/// The statement of account 100 for March 2024 after these trades.
pub const WANTED: &str = "Statement of account 100\n\
    Main\n\
    From 2024-03-01 to 2024-03-31\n\
    Opening                  10000.00\n\
    2024-03-01               -1025.10 Market-Buy 100 shares of Acme\n\
    2024-03-01               -2429.00 Market-Buy 200 shares of Acme\n\
    2024-03-01                1857.50 Market-Sell 150 shares of Acme\n\
    Closing                   8403.40\n\
    ABC                         2         150      12.00\n\
    Holdings                  1500.00\n\
    Cash rows 3, lots 1\n";
