use pkg_state::Class;

/// All classes, in the order in which a package's needs are taken up.
pub const CLASSES: [Class; 5] = [
    Class::Rdepend,
    Class::Pdepend,
    Class::Depend,
    Class::Bdepend,
    Class::Idepend,
];
