// What a ticket describes.
ghost use Rattle.std.specs.Prelude.{◌≡◌};
ghost use Rattle.tables.specs.code.InstanceOfTable.{empty_table};

use consensus::Fault;

// n, t, the value that each process proposes and its fault; what stands behind the first n places of the arrays does not matter.
#[derive(Clone, Copy)]
pub struct InstanceTable {
    pub n: u8,
    pub t: u8,
    pub proposals: [u32; 64],
    pub pattern: [Fault; 64],
}

impl InstanceTable {
    // The table before a line is stored in it.
    pub fn empty() -> InstanceTable
        ensures { result ≡ empty_table 0 0 }
    {
        InstanceTable {
            n: 0,
            t: 0,
            proposals: [0; 64],
            pattern: [Fault::Correct; 64],
        }
    }
}
