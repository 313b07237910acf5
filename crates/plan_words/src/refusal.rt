ghost use Rattle.std.specs.Prelude.{◌≡◌, ◌++◌, ◌∷◌, [], List, MatchOption, OnOk, codes};
ghost use Rattle.std.specs.Prelude.{decimal, map, string_bytes};
ghost use Rattle.std.specs.List.{flat_map};
ghost use Rattle.std.specs.Option.{option_map};
ghost use Rattle.dep_atom.specs.Ids.{id_text};
ghost use Rattle.dep_atom.specs.Values.{atom_value};
ghost use Rattle.pkg_state.specs.Fault as state;
ghost use Rattle.pkg_state.specs.Package.{class_word};
ghost use Rattle.plan_rules.specs.Refusals.{told};
ghost use Rattle.plan_text.specs.Printed.{spaced};
ghost use Rattle.plan_words.specs.Words.{broken_id, found_word, leaf_word};
ghost use Rattle.plan_words.specs.Words.{refusal_words};

use crate::words::{
    push_class, push_found, push_id, push_leaf, push_number, push_numbers, push_word,
};
use dep_atom::{Atom, Bind, PackageId};
use pkg_state::{Broken, Class, LineName};
use plan_rules::PlanRefused;
use std::alloc::{AllocError, Global};

fn push_line(
    out: &mut String,
    line: &LineName,
    group: usize,
    other: usize,
) -> Result<(), AllocError>
    ensures { OnOk result (string_bytes out.new ≡ string_bytes out.old ++ flat_map spaced
        (codes "Line" ∷ line.now ∷ decimal group ∷ decimal other ∷ [])) }
{
    push_word(out, "Line")?;
    push_word(out, line.text())?;
    push_number(out, group)?;
    push_number(out, other)
}

/// The rule and two packages.
fn push_two(
    out: &mut String,
    alloc: Global,
    rule: &str,
    id: &PackageId,
    other: &PackageId,
) -> Result<(), AllocError>
    ensures { OnOk result (string_bytes out.new ≡ string_bytes out.old ++ flat_map spaced
        (rule.now ∷ id_text id.now ∷ id_text other.now ∷ [])) }
{
    push_word(out, rule)?;
    push_id(out, alloc, id)?;
    push_id(out, alloc, other)
}

/// The rule and a package.
fn push_one(out: &mut String, alloc: Global, rule: &str, id: &PackageId) -> Result<(), AllocError>
    ensures { OnOk result (string_bytes out.new ≡ string_bytes out.old ++ flat_map spaced
        (rule.now ∷ id_text id.now ∷ [])) }
{
    push_word(out, rule)?;
    push_id(out, alloc, id)
}

/// The rule, a group and a package.
fn push_of_group(
    out: &mut String,
    alloc: Global,
    rule: &str,
    group: usize,
    id: &PackageId,
) -> Result<(), AllocError>
    ensures { OnOk result (string_bytes out.new ≡ string_bytes out.old ++ flat_map spaced
        (rule.now ∷ decimal group ∷ id_text id.now ∷ [])) }
{
    push_word(out, rule)?;
    push_number(out, group)?;
    push_id(out, alloc, id)
}

/// A class and a leaf of it.
fn push_of_class(
    out: &mut String,
    alloc: Global,
    class: Class,
    leaf: &Option<Atom>,
) -> Result<(), AllocError>
    ensures { OnOk result (string_bytes out.new ≡ string_bytes out.old ++ flat_map spaced
        (class_word class ∷ leaf_word (option_map atom_value leaf.now) ∷ [])) }
{
    push_class(out, class)?;
    push_leaf(out, alloc, leaf)
}

/// What is wrong with the packages that are there to begin with.
fn push_opening(out: &mut String, alloc: Global, broken: &Broken) -> Result<(), AllocError>
    ensures { OnOk result (MatchOption (state.told broken.now) ⊥ (λ fault.
        string_bytes out.new ≡ string_bytes out.old ++ flat_map spaced
        (codes "OpeningBroken" ∷ id_text (broken_id fault) ∷ []))) }
{
    match broken {
        Broken::Runtime { package, .. } => push_one(out, alloc, "OpeningBroken", package),
        Broken::Blocked { package, .. } => push_one(out, alloc, "OpeningBroken", package),
        Broken::RequiredUse { package } => push_one(out, alloc, "OpeningBroken", package),
        Broken::SlotTwice { package, .. } => push_one(out, alloc, "OpeningBroken", package),
        Broken::Memory => Err(AllocError),
    }
}

/// The rule, a group, a package, and a class with a leaf of it.
fn push_need(
    out: &mut String,
    alloc: Global,
    rule: &str,
    group: usize,
    id: &PackageId,
    class: Class,
    leaf: &Option<Atom>,
) -> Result<(), AllocError>
    ensures { OnOk result (string_bytes out.new ≡ string_bytes out.old ++ flat_map spaced
        (rule.now ∷ decimal group ∷ id_text id.now ∷ class_word class
        ∷ leaf_word (option_map atom_value leaf.now) ∷ [])) }
{
    push_of_group(out, alloc, rule, group, id)?;
    push_of_class(out, alloc, class, leaf)
}

/// A package whose need is missing in between, with the groups that may come meanwhile.
fn push_unsafe(
    out: &mut String,
    alloc: Global,
    id: &PackageId,
    class: Class,
    leaf: &Option<Atom>,
    meeting: &[usize],
) -> Result<(), AllocError>
    ensures { OnOk result (string_bytes out.new ≡ string_bytes out.old ++ flat_map spaced
        (codes "Unsafe" ∷ id_text id.now ∷ class_word class
        ∷ leaf_word (option_map atom_value leaf.now) ∷ codes "groups" ∷ map decimal meeting.now)) }
{
    push_one(out, alloc, "Unsafe", id)?;
    push_of_class(out, alloc, class, leaf)?;
    push_word(out, "groups")?;
    push_numbers(out, meeting)
}

/// A package, the leaf whose bind isn't right, and the bind that was found.
fn push_binding(
    out: &mut String,
    alloc: Global,
    id: &PackageId,
    leaf: &Option<Atom>,
    found: &Option<Bind>,
) -> Result<(), AllocError>
    ensures { OnOk result (string_bytes out.new ≡ string_bytes out.old ++ flat_map spaced
        (codes "Binding" ∷ id_text id.now ∷ leaf_word (option_map atom_value leaf.now)
        ∷ found_word found.now ∷ [])) }
{
    push_one(out, alloc, "Binding", id)?;
    push_leaf(out, alloc, leaf)?;
    push_found(out, found)
}

/// Puts the words that tell why a plan is refused behind a text, each behind a space. Want of
/// memory has no words.
pub fn push_refusal(
    out: &mut String,
    alloc: Global,
    refused: &PlanRefused,
) -> Result<(), AllocError>
    ensures { OnOk result (MatchOption (told refused.now) ⊥ (λ refusal.
        string_bytes out.new ≡ string_bytes out.old ++ flat_map spaced (refusal_words refusal))) }
{
    match refused {
        PlanRefused::Line { line, group, other } => push_line(out, line, *group, *other),
        PlanRefused::Absent { group, package } => {
            push_of_group(out, alloc, "Absent", *group, package)
        }
        PlanRefused::Occupied {
            group,
            package,
            other,
        } => {
            push_of_group(out, alloc, "Occupied", *group, package)?;
            push_id(out, alloc, other)
        }
        PlanRefused::Opening(broken) => push_opening(out, alloc, broken),
        PlanRefused::RequiredUse { package } => push_one(out, alloc, "RequiredUse", package),
        PlanRefused::Binding {
            package,
            leaf,
            found,
        } => push_binding(out, alloc, package, leaf, found),
        PlanRefused::Unsatisfied {
            group,
            package,
            class,
            leaf,
        } => push_need(out, alloc, "Unsatisfied", *group, package, *class, leaf),
        PlanRefused::Unsafe {
            package,
            class,
            leaf,
            meeting,
        } => push_unsafe(out, alloc, package, *class, leaf, meeting),
        PlanRefused::Blocked { package, other } => {
            push_two(out, alloc, "WeakBlock", package, other)
        }
        PlanRefused::Barred { package, other, .. } => {
            push_two(out, alloc, "StrongBlock", package, other)
        }
        PlanRefused::Build {
            group,
            package,
            class,
            leaf,
        } => push_need(out, alloc, "Build", *group, package, *class, leaf),
        PlanRefused::Final { package, leaf } => {
            push_one(out, alloc, "Final", package)?;
            push_leaf(out, alloc, leaf)
        }
        PlanRefused::Memory => Err(AllocError),
    }
}
