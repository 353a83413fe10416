// The nine bytes of a process's state (document 01, 'The desk part' and 'Refused calls'): which are valid and open, and how they are written.
#![tactic(auto)]

pub mod check;
pub mod layout;
