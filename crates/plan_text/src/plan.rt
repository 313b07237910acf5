use build_pool::Order;
use dep_atom::PackageId;
use pms_names::SlotName;

/// Groups of changes. The group at place g has the number g + 1.
#[derive(Debug, Drop)]
pub struct Plan {
    pub groups: Vec<Group>,
}

/// Changes that are made together.
#[derive(Debug, Drop)]
pub struct Group {
    /// The numbers of the groups that are done before, in rising order.
    pub after: Vec<u32>,
    pub removals: Vec<Removal>,
    /// The packages that come, as they are ordered of a builder.
    pub additions: Vec<Order>,
}

/// A package that goes.
#[derive(Debug, Drop)]
pub struct Removal {
    pub id: PackageId,
    pub slot: SlotName,
}
