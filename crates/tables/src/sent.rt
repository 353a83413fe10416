// What each process has sent.
ghost use Rattle.tables.specs.code.NoneSent.{NoneSent};

// Of each process the data and the commit messages that count, at place p - 1 (document 02, Papers 2 and 4). They stand beside the run's table and are lent, since
// two arrays more in a table that goes through every round by value took 2 to 13 % longer.
#[derive(Clone, Copy)]
pub struct SentCounts {
    pub data_by: [u8; 64],
    pub commits_by: [u8; 64],
}

impl SentCounts {
    // No message has been counted for any process.
    pub fn none() -> SentCounts
        ensures { NoneSent result }
    {
        SentCounts {
            data_by: [0; 64],
            commits_by: [0; 64],
        }
    }
}
