ghost use Rattle.std.specs.Prelude.{◌≡◌, true, IfErr, IsErrOf, IsTrue, OnErr, OnOk};
ghost use Rattle.file_tree.specs.Disk.{CountsFault};
ghost use Rattle.merge_core.specs.Event.{Claim};
ghost use Rattle.merge_core.specs.Payloads.{IsAt};
ghost use Rattle.merge_site.specs.Claiming.{AreClear, IsGranted, IsStop, IsUnownedStop};
ghost use Rattle.merge_site.specs.Site.{Adds, KeepsHistory};

use crate::fault::ClaimStop;
use crate::judging::judge_claim;
use crate::site::{Site, enter_claim};
use file_tree::{Sink, Tree, TreeFault};
use merge_core::Phase;

impl<T: Tree, S: Sink> Site<T, S> {
    /// Takes the claim of a sealed group: its gate may be opened from here on. The book judges its
    /// paths, and what nobody owns is looked for in the tree. A claim that is stopped changes nothing
    /// and adds no event, whatever stopped it.
    pub fn claim(&mut self, group: u32) -> Result<(), ClaimStop>
        requires at { IsAt self.old.keeping group Phase.Sealed }
        ensures event { OnOk result (Adds self.old self.new (Claim group) true) }
        ensures granted { OnOk result (IsGranted self.old group) }
        ensures clear { IsTrue T.tells → OnOk result
            (AreClear (T.story self.old.tree).now.holds self.old group) }
        ensures stopped { IfErr result (IsStop self.old group) }
        ensures unowned { IsTrue T.tells → IfErr result
            (IsUnownedStop (T.story self.old.tree).now.holds self.old group) }
        ensures kept { OnErr result (KeepsHistory self.old self.new) }
        ensures same { IsTrue T.tells → T.story self.new.tree ≡ T.story self.old.tree }
        ensures sink { self.new.sink ≡ self.old.sink }
        ensures faults { CountsFault (IsErrOf result (ClaimStop.Tree TreeFault.Failed))
            (T.faults self.old.tree) (T.faults self.new.tree) }
    {
        let wishes = &self.wishes[group as usize];
        let removals = self.core.removals(group);
        let dying = &self.groups[group as usize].dying;
        let judged = judge_claim(
            self.alloc,
            &mut self.tree,
            &mut self.book,
            group,
            wishes,
            removals,
            dying,
        );
        if judged.is_ok() {
            self.book.claims_are_apart();
            enter_claim(&mut self.core, &mut self.log, group);
        }
        judged
    }
}
