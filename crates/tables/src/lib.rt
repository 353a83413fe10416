// The table of a ticket's numbers, as reading it whole answers it, and the table by value that a run is kept in. Process p (document 01: station) stands
// at place p - 1.
// specs/ says which instance and which run a table stands for.
#![tactic(auto)]

mod instance;
mod run;
mod sent;
mod well_formed;

pub use instance::InstanceTable;
pub use run::{CRASHED, DECIDED, RunTable, UNDECIDED, initial_run};
pub use sent::SentCounts;
pub use well_formed::Instance;
