// A well-formed instance.
ghost use Rattle.std.proofs.Props.{props};
ghost use Rattle.coordinator.specs.WellFormed.{WellFormed};
ghost use Rattle.tables.specs.code.InstanceOfTable.{instance_of};
ghost use Rattle.tables.specs.code.Once.{fault_once};

use crate::instance::InstanceTable;

// A table, lent, whose instance is what refusals 1 to 8 leave of a ticket's.
#[derive(Clone, Copy)]
pub struct Instance<'a> {
    pub table: &'a InstanceTable,
    pub ghost well_formed: { WellFormed (instance_of table.now) } by { Prim.hlevel (props, fault_once) },
}
