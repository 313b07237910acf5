ghost use Rattle.std.specs.Prelude.{◌≡◌, ◌++◌, IfOk, IsErrOf, IsTrue, MatchOption, None, OnOk};
ghost use Rattle.std.specs.Cmp.Lexicographic.{slice_cmp};
ghost use Rattle.std.specs.List.{AllByRecursion};
ghost use Rattle.std.specs.List.Sorted.{IsStrictlySortedBy};
ghost use Rattle.std.specs.Option.{option_copied, option_map, option_to_list};
ghost use Rattle.std.specs.Ordering.{nat_cmp};
ghost use Rattle.file_tree.specs.Disk.{CountsFault};
ghost use Rattle.visible_verdicts.specs.Candidates.{AreCandidates, bytes_of, entry_text};
ghost use Rattle.visible_verdicts.specs.Places.{AreJudged, ArePlaces, IsPlace, IsVerdictOn, ids_of};
ghost use Rattle.dep_atom.specs.Ids.{IsId};

use crate::place::{Place, ebuild_path, entry_path, folder_path, place_at};
use crate::ranking::ranked;
use crate::rules::VisibleRules;
use crate::verdict::{Candidates, Verdict, verdict_on};
use dep_atom::PackageId;
use file_tree::{Kind, Object, Path, Tree, TreeFault};
use std::alloc::{AllocError, Global};

/// The candidates of the repository. What else stands in the cache is passed over.
pub fn candidates<T: Tree>(
    alloc: Global,
    tree: &mut T,
    rules: &VisibleRules,
) -> Result<Candidates, TreeFault>
    ensures found { IsTrue T.tells → IfOk result (λ c.
        AreCandidates (T.story tree.old).now.holds rules.now c.visible.items c.hidden.items) }
    ensures same { IsTrue T.tells → T.story tree.new ≡ T.story tree.old }
    ensures faults { CountsFault (IsErrOf result TreeFault.Failed) (T.faults tree.old)
        (T.faults tree.new) }
{
    pms_version::order_is_that_of_keys();
    let folder = folder_path(alloc)?;
    let listed = tree.list(&folder)?;
    let found = places_of(alloc, &listed)?;
    let places = ranked(found)?;
    judge_places(alloc, tree, rules, &places)
}

/// The places of the entries among these paths.
fn places_of(alloc: Global, paths: &[Path]) -> Result<Vec<Place>, AllocError>
    requires { IsStrictlySortedBy (slice_cmp nat_cmp) paths.now }
    ensures { IfOk result (λ v. ArePlaces paths.now v.items) }
{
    pms_version::order_is_that_of_keys();
    let mut places = Vec::new(alloc);
    for path in paths {
        let place = place_at(alloc, path)?;
        add_place(&mut places, place)?;
    }
    Ok(places)
}

fn add_place(places: &mut Vec<Place>, place: Option<Place>) -> Result<(), AllocError>
    ensures { OnOk result (places.new.items ≡ places.old.items ++ option_to_list place) }
{
    if let Some(place) = place {
        places.push(place)?;
    }
    Ok(())
}

/// Judges those of the packages that have an entry, one after the other.
fn judge_places<T: Tree>(
    alloc: Global,
    tree: &mut T,
    rules: &VisibleRules,
    places: &[Place],
) -> Result<Candidates, TreeFault>
    requires { AllByRecursion IsPlace places.now }
    ensures found { IsTrue T.tells → IfOk result (λ c. AreJudged (T.story tree.old).now.holds
        rules.now (ids_of places.now) c.visible.items c.hidden.items) }
    ensures same { IsTrue T.tells → T.story tree.new ≡ T.story tree.old }
    ensures faults { CountsFault (IsErrOf result TreeFault.Failed) (T.faults tree.old)
        (T.faults tree.new) }
{
    let mut candidates = Candidates::new(alloc);
    for place in places {
        let verdict = judge_place(alloc, tree, rules, &place.id)?;
        candidates.add(verdict)?;
    }
    Ok(candidates)
}

/// The verdict on the package, if it has an entry.
fn judge_place<T: Tree>(
    alloc: Global,
    tree: &mut T,
    rules: &VisibleRules,
    id: &PackageId,
) -> Result<Option<Verdict>, TreeFault>
    requires { IsId id.now }
    ensures found { IsTrue T.tells → IfOk result (λ r.
        MatchOption r (entry_text (T.story tree.old).now.holds id.now ≡ None)
        (IsVerdictOn (T.story tree.old).now.holds rules.now id.now)) }
    ensures same { IsTrue T.tells → T.story tree.new ≡ T.story tree.old }
    ensures faults { CountsFault (IsErrOf result TreeFault.Failed) (T.faults tree.old)
        (T.faults tree.new) }
{
    let path = entry_path(alloc, id)?;
    let Some(entry) = read_file(tree, &path)? else {
        return Ok(None);
    };
    let path = ebuild_path(alloc, id)?;
    let ebuild = read_file(tree, &path)?;
    let verdict = verdict_on(alloc, rules, id.try_clone()?, &entry, lent(&ebuild))?;
    Ok(Some(verdict))
}

/// The bytes of the file at the path, if it holds one. A link is none.
fn read_file<T: Tree>(tree: &mut T, path: &Path) -> Result<Option<Vec<u8>>, TreeFault>
    ensures found { IsTrue T.tells → IfOk result (λ r. option_map (λ v. v.items) r ≡
        bytes_of ((T.story tree.old).now.holds path.now)) }
    ensures same { IsTrue T.tells → T.story tree.new ≡ T.story tree.old }
    ensures faults { CountsFault (IsErrOf result TreeFault.Failed) (T.faults tree.old)
        (T.faults tree.new) }
{
    let object = tree.read(path)?;
    Ok(bytes_of(object))
}

fn bytes_of(object: Option<Object>) -> Option<Vec<u8>>
    ensures { option_map (λ v. v.items) result ≡ bytes_of object }
{
    match object {
        Some(object) => match object.kind {
            Kind::Plain | Kind::Exec => Some(object.bytes),
            Kind::Link => None,
        },
        None => None,
    }
}

fn lent(bytes: &Option<Vec<u8>>) -> Option<&[u8]>
    ensures { option_copied result ≡ option_map (λ v. v.items) bytes.now }
{
    match bytes {
        Some(bytes) => Some(bytes.as_slice()),
        None => None,
    }
}
