ghost use Rattle.std.specs.Prelude.{◌≡◌};
ghost use Rattle.pms_names.specs.declared.kind.Kind.TheVariants as kinds;

/// What a name names.
#[derive(Clone, Copy, Debug)]
pub enum Kind {
    Category,
    Package,
    Slot,
    Flag,
}

/// A marker for one kind of names: the parameter of [`NameOf`](crate::NameOf).
pub trait NameKind {
    ghost use Rattle.pms_names.specs.declared.kind.Kind.{Kind};

    ghost kind: { Kind };

    fn kind() -> Kind
        ensures { result ≡ kind };
}

/// Marks the names of categories.
#[derive(Clone, Copy, Debug, PartialEq, Eq, PartialOrd, Ord)]
pub struct OfCategory;

/// Marks the names of packages.
#[derive(Clone, Copy, Debug, PartialEq, Eq, PartialOrd, Ord)]
pub struct OfPackage;

/// Marks the names of slots and subslots.
#[derive(Clone, Copy, Debug, PartialEq, Eq, PartialOrd, Ord)]
pub struct OfSlot;

/// Marks the names of USE flags.
#[derive(Clone, Copy, Debug, PartialEq, Eq, PartialOrd, Ord)]
pub struct OfFlag;

impl NameKind for OfCategory {
    ghost kind = { kinds.Category };

    fn kind() -> Kind {
        Kind::Category
    }
}

impl NameKind for OfPackage {
    ghost kind = { kinds.Package };

    fn kind() -> Kind {
        Kind::Package
    }
}

impl NameKind for OfSlot {
    ghost kind = { kinds.Slot };

    fn kind() -> Kind {
        Kind::Slot
    }
}

impl NameKind for OfFlag {
    ghost kind = { kinds.Flag };

    fn kind() -> Kind {
        Kind::Flag
    }
}
