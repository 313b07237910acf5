ghost use Rattle.std.specs.Prelude.{◌≡◌, IfOk, IsErrOf, IsTrue};
ghost use Rattle.file_tree.specs.Disk.{CountsFault};
ghost use Rattle.visible_set.specs.Configured.{setup_of};
ghost use Rattle.visible_set.specs.Offers.{AreJudged};

use crate::rules::{Accepted, accepted_by};
use config_vars::FileVars;
use file_tree::{Tree, TreeFault};
use profile_lines::Item;
use profile_stack::UserConfig;
use std::alloc::{AllocError, Global};
use visible_rules::{Keywords, Masks};
use visible_verdicts::{Candidates, VisibleRules, candidates};

/// The candidates of the tree's repository, by what is configured and by the variables of these
/// files.
pub(crate) fn visible_by<T: Tree>(
    alloc: Global,
    tree: &mut T,
    config: &UserConfig,
    files: &[FileVars],
) -> Result<Candidates, TreeFault>
    ensures found { IsTrue T.tells → IfOk result (λ c. AreJudged (T.story tree.old).now.holds
        (setup_of config.now files.now) c.visible.items c.hidden.items) }
    ensures same { IsTrue T.tells → T.story tree.new ≡ T.story tree.old }
    ensures faults { CountsFault (IsErrOf result TreeFault.Failed) (T.faults tree.old)
        (T.faults tree.new) }
{
    let accepted = accepted_by(alloc, &config.keywords, files)?;
    let rules = rules_of(alloc, &accepted, &config.masks, &config.unmasks)?;
    candidates(alloc, tree, &rules)
}

fn rules_of<'a>(
    alloc: Global,
    accepted: &'a Accepted,
    masks: &'a [Item],
    unmasks: &'a [Item],
) -> Result<VisibleRules<'a>, AllocError>
    ensures masks { IfOk result (λ r. r.masks ≡ masks.now) }
    ensures unmasks { IfOk result (λ r. r.unmasks ≡ unmasks.now) }
    ensures standing { IfOk result (λ r. r.keywords.standing ≡ accepted.now.standing.items) }
    ensures bare { IfOk result (λ r. r.keywords.bare ≡ accepted.now.bare.items) }
    ensures lines { IfOk result (λ r. r.keywords.lines ≡ accepted.now.lines.items) }
{
    let masks = Masks::new(alloc, masks)?;
    let unmasks = Masks::new(alloc, unmasks)?;
    let keywords = Keywords::new(alloc, &accepted.standing, &accepted.bare, &accepted.lines)?;
    Ok(VisibleRules {
        masks,
        unmasks,
        keywords,
    })
}
