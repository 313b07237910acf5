use crate::word::FlagWord;
use pms_names::Flags;
use std::marker::Model;
use visible_rules::FlagItems;

/// What the configuration says of flags.
#[derive(Drop)]
pub struct FlagConfig<'a> {
    /// What the variables of the profile say.
    pub defaults: &'a [FlagWord],
    /// The rules of the profile's `package.use`.
    pub profile_uses: FlagItems<'a>,
    /// What `make.conf` says.
    pub conf: &'a [FlagWord],
    /// The rules of the user's `package.use`.
    pub uses: FlagItems<'a>,
    /// Which flags are forced.
    pub forces: FlagItems<'a>,
    /// Which flags are masked.
    pub masks: FlagItems<'a>,
    /// The flags that are on for every package.
    pub implicit: &'a Flags,
}

impl<'a> Model for FlagConfig<'a> {
    ghost use Rattle.visible_offers.specs.Flags.{FlagConfigValue};

    ghost Value = { FlagConfigValue };

    ghost view = { λ c. record {
      defaults = c.defaults.now;
      profile_uses = c.profile_uses;
      conf = c.conf.now;
      uses = c.uses;
      forces = c.forces;
      masks = c.masks;
      implicit = c.implicit.now;
    } };
}
