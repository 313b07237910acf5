//! The user's configuration: the files in `etc/portage`, read behind the profile.
//!
//! **A contract sees** what is configured as lists of assignments and items (`Config` in
//! `specs/Files.antt`), and a line and an item as `profile_lines` does.
//!
//! **Proved**: `make.conf` counts behind the profile's variables, and then the four line files in
//! their order, each as what its lines make of what was said before. A hyphen before an atom takes
//! back every equal item, also one of the profile. Where a file is at fault the first fault is
//! told, and where none is only the machine can fail. The tree is only read.
//!
//! **Only tested**: that with ample memory the files are read.
//!
//! ```
//! let profile = read(alloc, &mut tree, &path)?;
//! let config = read_user(alloc, &mut tree, profile)?;
//! let unmasked = config.unmasks.iter().any(|item| item.text.as_str() == "dev-libs/icu");
//! ```
#![tactic(auto)]

mod line_file;
mod make_conf;
mod taken;
mod user_config;
mod whole;

pub use make_conf::{MAKE_CONF, MAKE_PROFILE};
pub use user_config::UserConfig;
pub use whole::read_user;
