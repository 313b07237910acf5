/// The greatest number of installed packages.
pub const MOST_PACKAGES: usize = 65_536;
