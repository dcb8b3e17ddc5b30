// One login and one node handle of a target: the row, the checked record, and what each event makes of it.
#![tactic(auto)]

pub mod checks;
pub mod handles;
pub mod logins;
pub mod rows;
