ghost use Rattle.std.specs.Prelude.{◌≡◌, ◌⊎◌, IfErr, IfOk, IsErrOf, IsTrue, length, map};
ghost use Rattle.file_tree.specs.Disk.{CountsFault};
ghost use Rattle.profile_stack.specs.Files.{Config, configured};
ghost use Rattle.visible_set.specs.Configured.{IsRead, file_value, files_of, flags_by, setup_of};
ghost use Rattle.visible_set.specs.Faults.{FirstFault, IsBehind, IsHeldBack, IsOfMachine};
ghost use Rattle.visible_set.specs.Offers.{AreOffers, AreOffersOf, AreTried};

use crate::collecting::offers_of;
use crate::config::read_config;
use crate::fault::{OffersFault, fault_of_value};
use crate::files::files_of;
use crate::offers::Offers;
use crate::said::{Said, said_by};
use crate::visible::visible_by;
use config_vars::{FileVars, judge};
use file_tree::{Tree, TreeFault};
use profile_lines::DefaultsFile;
use profile_stack::UserConfig;
use std::alloc::{AllocError, Global};
use visible_offers::FlagConfig;
use visible_rules::FlagItems;
use visible_verdicts::Candidates;

/// So many candidates are visible at most.
pub const MOST_CANDIDATES: usize = 131_072;

/// What a run may choose from: the candidates of the tree's repository as its configuration has
/// them, where at most so many flags of each are flipped.
pub fn read_offers<T: Tree>(alloc: Global, tree: &mut T, flips: u32) -> Result<Offers, OffersFault>
    ensures found { IsTrue T.tells → IfOk result (λ o. AreOffers (T.story tree.old).now.holds
        flips o.implicit o.candidates.items o.hidden.items) }
    ensures only { IsTrue T.tells → (c : Config) → IsRead (T.story tree.old).now.holds c →
        IfErr result (λ e. IsOfMachine e ⊎ IsBehind (T.story tree.old).now.holds e) }
    ensures fault { IsTrue T.tells → IfErr result (λ e. IsOfMachine e ⊎
        FirstFault (T.story tree.old).now.holds e) }
    ensures same { IsTrue T.tells → T.story tree.new ≡ T.story tree.old }
    ensures faults { CountsFault (IsErrOf result (OffersFault.Tree TreeFault.Failed))
        (T.faults tree.old) (T.faults tree.new) }
{
    let config = read_config(alloc, tree)?;
    let files = files_of(alloc, &config)?;
    offers_by(alloc, tree, &config, &files, flips)
}

/// The offers by what is configured, where these files set variables.
fn offers_by<T: Tree>(
    alloc: Global,
    tree: &mut T,
    config: &UserConfig,
    files: &[FileVars],
    flips: u32,
) -> Result<Offers, OffersFault>
    requires files { map file_value files.now ≡ files_of (configured config.now) }
    ensures found { IsTrue T.tells → IfOk result (λ o. AreOffersOf (T.story tree.old).now.holds
        (setup_of config.now files.now) flips o.implicit o.candidates.items o.hidden.items) }
    ensures fault { IsTrue T.tells → IfErr result (λ e. IsOfMachine e ⊎ IsHeldBack
        (T.story tree.old).now.holds (setup_of config.now files.now) e) }
    ensures same { IsTrue T.tells → T.story tree.new ≡ T.story tree.old }
    ensures faults { CountsFault (IsErrOf result (OffersFault.Tree TreeFault.Failed))
        (T.faults tree.old) (T.faults tree.new) }
{
    if let Err(fault) = judge(alloc, files) {
        return Err(fault_of_value(fault));
    }
    let found = visible_by(alloc, tree, config, files)?;
    if found.visible.len() > MOST_CANDIDATES {
        return Err(OffersFault::Limit);
    }
    let said = said_by(alloc, files, count_of(&config.files))?;
    let offers = collect(alloc, config, &said, &found, flips)?;
    Ok(offers)
}

fn count_of(files: &[DefaultsFile]) -> usize
    ensures { result ≡ length files.now }
{
    files.len()
}

/// The offers of these candidates.
fn collect(
    alloc: Global,
    config: &UserConfig,
    said: &Said,
    found: &Candidates,
    flips: u32,
) -> Result<Offers, AllocError>
    ensures implicit { IfOk result (λ o. o.implicit ≡ said.now.implicit) }
    ensures tried { IfOk result (λ o. AreTried (flags_by (configured config.now)
        said.now.defaults.items said.now.conf.items said.now.implicit) flips
        found.now.visible.items found.now.hidden.items o.candidates.items o.hidden.items) }
{
    let flags = flags_of(alloc, config, said)?;
    offers_of(alloc, &flags, found, flips)
}

/// What the configuration says of flags, with its items put in order by their names.
fn flags_of<'a>(
    alloc: Global,
    config: &'a UserConfig,
    said: &'a Said,
) -> Result<FlagConfig<'a>, AllocError>
    ensures { IfOk result (λ c. c ≡ flags_by (configured config.now) said.now.defaults.items
        said.now.conf.items said.now.implicit) }
{
    let profile_uses = FlagItems::new(alloc, &config.profile_uses)?;
    let uses = FlagItems::new(alloc, &config.uses)?;
    let forces = FlagItems::new(alloc, &config.forces)?;
    let masks = FlagItems::new(alloc, &config.hides)?;
    Ok(FlagConfig {
        defaults: &said.defaults,
        profile_uses,
        conf: &said.conf,
        uses,
        forces,
        masks,
        implicit: &said.implicit,
    })
}
