ghost use Rattle.std.specs.Prelude.{◌≡◌};
ghost use Rattle.pkg_state.specs.Package.{class_word};

/// When a package needs what a tree of dependencies names (PMS 8.1).
#[derive(Clone, Copy, Debug)]
pub enum Class {
    /// While it runs.
    Rdepend,
    /// Some time after it was merged.
    Pdepend,
    /// While it is built, of the system that it is built for.
    Depend,
    /// While it is built, of the system that builds it.
    Bdepend,
    /// While it is merged or unmerged.
    Idepend,
}

impl Class {
    /// The name of the variable that says what a package needs.
    pub fn word(self) -> &'static str
        ensures { result.now ≡ class_word self }
    {
        match self {
            Class::Rdepend => "RDEPEND",
            Class::Pdepend => "PDEPEND",
            Class::Depend => "DEPEND",
            Class::Bdepend => "BDEPEND",
            Class::Idepend => "IDEPEND",
        }
    }
}
