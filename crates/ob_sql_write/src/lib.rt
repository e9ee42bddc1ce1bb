//! Writes the rows of a book in transactions and reads them back.
//!
//! Creates the eleven tables of a new book, and writes the rows of an accepted command. Upgrades
//! the ten tables of version 1 to version 2. Reads the rows of one command by reference or number, and
//! one row of the table `moved`.
//! Promises that each transaction is committed whole or not at all, also if the store fails or the
//! machine stops. Refuses a database that isn't empty and leaves it as it was. Reading writes
//! nothing; a row that no book has is a fault of the store. `ob_record`, `ob_sql_read`, `ob_sql_check`,
//! `ob_store` and `ob_desk` use this crate.
#![tactic(auto)]

mod act;
mod change;
mod columns;
mod creation;
mod known;
mod moved_row;
mod moves;
mod stored;
mod upgrade;
mod within;
mod writing;

pub use act::{Act, commit_act};
pub use creation::commit_new;
pub use known::{Known, look_up};
pub use moved_row::read_moved;
pub use stored::stored_moves;
pub use upgrade::{NewBody, commit_upgrade};
pub use within::{look_up_within, write_act};
