ghost use Rattle.std.specs.Prelude.{◌≡◌, ◌≤◌, IfOk, length, map};
ghost use Rattle.config_vars.specs.Values.{expanded};
ghost use Rattle.visible_offers.specs.Flags.{AreImplicit};
ghost use Rattle.visible_offers.specs.Words as words;
ghost use Rattle.std.specs.Prelude.{drop, take};

use config_vars::{FileVars, expanded};
use pms_names::Flags;
use std::alloc::{AllocError, Global};
use visible_offers::{FlagWord, flag_words, implicit_flags};

/// What the variables say of flags.
#[derive(Drop)]
pub(crate) struct Said {
    /// Those of the profile.
    pub(crate) defaults: Vec<FlagWord>,
    /// Those of the user's file.
    pub(crate) conf: Vec<FlagWord>,
    pub(crate) implicit: Flags,
}

/// What the variables of the files say of flags, of which so many are the profile's.
pub(crate) fn said_by(alloc: Global, files: &[FileVars], count: usize) -> Result<Said, AllocError>
    requires within { count ≤ length files.now }
    ensures defaults { IfOk result (λ s. s.defaults.items ≡
        words.flag_words (expanded files.now) (take count files.now)) }
    ensures conf { IfOk result (λ s. s.conf.items ≡
        words.flag_words (expanded files.now) (drop count files.now)) }
    ensures implicit { IfOk result (λ s. AreImplicit files.now s.implicit) }
{
    let variables = expanded(alloc, files)?;
    let (profile, user) = files.split_at(count);
    Ok(Said {
        defaults: flag_words(alloc, &variables, profile)?,
        conf: flag_words(alloc, &variables, user)?,
        implicit: implicit_flags(alloc, files)?,
    })
}
