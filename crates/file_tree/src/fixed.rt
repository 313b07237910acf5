/// The folder of the installed packages.
pub const DATABASE: &str = "var/db/pkg";

/// The folder of the program's own files.
pub const OWN_FILES: &str = "var/lib/portage";

/// The folder of all groups' journals.
pub const JOBS: &str = "var/lib/portage/jobs";
