ghost use Rattle.std.specs.Prelude.{◌≡◌, ◌++◌, ◌∷◌, [], IfOk, IfSome, IsSome, OnOk, codes};
ghost use Rattle.std.specs.Prelude.{decimal, length, string_bytes};
ghost use Rattle.std.specs.List.{flat_map};
ghost use Rattle.dep_atom.specs.Ids.{id_text};
ghost use Rattle.dep_atom.specs.Text.{atom_text};
ghost use Rattle.plan_rules.specs.Refusals.{told};
ghost use Rattle.merge_report.specs.Shown.{shown};
ghost use Rattle.merge_report.specs.Texts.{bad_text, broken_text, collision_text, come_text};
ghost use Rattle.merge_report.specs.Texts.{done_line, gone_text, inconsistent_text, last_line};
ghost use Rattle.merge_report.specs.Texts.{leaf_text, pair_text, place_of_fault, reason_text};
ghost use Rattle.merge_report.specs.Texts.{reason_word, refused_text, spaced_id};

use crate::collision::Collision;
use crate::escapes::shown;
use crate::status::{Part, Status};
use choice_tree::Choice;
use dep_atom::{Atom, PackageId};
use emerge_choose::{NotTaken, Reason};
use emerge_words::WordFault;
use file_tree::{Path, Quantity};
use merge_fit::ImageBad;
use pkg_state::{Broken, Pkg};
use plan_lives::{Group, Removal};
use plan_rules::PlanRefused;
use plan_words::push_refusal;
use recovery::RecoverFault;
use std::alloc::{AllocError, Global};
use vdb_text::DatabaseFault;

/// The line of a group of a plan: what it takes away, then what it brings, each in its order.
pub fn line_of_group(alloc: Global, group: &Group, number: u32) -> Result<String, AllocError>
    ensures { IfOk result (λ t. string_bytes t ≡ done_line group.now number) }
{
    let gone = listed_removals(alloc, &group.removals)?;
    let come = listed_additions(alloc, &group.additions)?;
    format!(in alloc; "done {number}{gone}{come}\n")
}

/// Each package that goes, behind a hyphen.
fn listed_removals(alloc: Global, removals: &[Removal]) -> Result<String, AllocError>
    ensures { IfOk result (λ t. string_bytes t ≡ flat_map gone_text removals.now) }
{
    let mut listed = String::new(alloc);
    for removal in removals {
        write_removal(alloc, removal, &mut listed)?;
    }
    Ok(listed)
}

fn write_removal(alloc: Global, removal: &Removal, text: &mut String) -> Result<(), AllocError>
    ensures { OnOk result (string_bytes text.new ≡
        string_bytes text.old ++ gone_text removal.now) }
{
    let id = removal.id.print(alloc)?;
    text.push_str(" -")?;
    text.push_str(id.as_str())
}

/// Each package that comes, behind a plus.
fn listed_additions(alloc: Global, additions: &[Pkg]) -> Result<String, AllocError>
    ensures { IfOk result (λ t. string_bytes t ≡ flat_map come_text additions.now) }
{
    let mut listed = String::new(alloc);
    for addition in additions {
        write_addition(alloc, addition, &mut listed)?;
    }
    Ok(listed)
}

fn write_addition(alloc: Global, addition: &Pkg, text: &mut String) -> Result<(), AllocError>
    ensures { OnOk result (string_bytes text.new ≡
        string_bytes text.old ++ come_text addition.now) }
{
    let id = addition.facts.id.print(alloc)?;
    text.push_str(" +")?;
    text.push_str(id.as_str())
}

/// The last line of a status that names nothing: it takes no memory.
pub fn fixed_line(status: &Status) -> Option<&'static str>
    ensures line { IfSome result (λ t. t.now ≡ last_line status.now) }
    ensures device { status.now ≡ Status.DeviceFault → IsSome result }
{
    match status {
        Status::Ok { .. }
        | Status::BadText { .. }
        | Status::BadDatabase(_)
        | Status::BadJournal(_)
        | Status::Inconsistent(_)
        | Status::NoCandidate { .. }
        | Status::BacktrackLimit { .. }
        | Status::PlanRefused(_)
        | Status::BuildCycle { .. }
        | Status::NoOrder(_)
        | Status::Collision(_)
        | Status::BadImage(_)
        | Status::BuildFailed { .. } => None,
        Status::Usage { fault } => fixed_usage(fault),
        Status::NoSolution { .. } => Some("emerge: NoSolution\n"),
        Status::DeviceFault => Some("emerge: DeviceFault\n"),
        Status::OutputFault => Some("emerge: OutputFault\n"),
        Status::Limit { quantity } => Some(limit_line(*quantity)),
        Status::Memory => Some("emerge: Memory\n"),
        Status::NotBuilt { what } => Some(match what {
            Part::Command => "emerge: NotBuilt: Command\n",
            Part::Result => "emerge: NotBuilt: Result\n",
        }),
    }
}

/// The last line of words that are no command, where it names no word.
fn fixed_usage(fault: &WordFault) -> Option<&'static str>
    ensures { IfSome result (λ t. t.now ≡ last_line (Status.Usage fault.now)) }
{
    match fault {
        WordFault::Usage => Some("emerge: Usage\n"),
        _ => None,
    }
}

/// The last line of words that are no command.
fn usage_line(alloc: Global, fault: &WordFault) -> Result<String, AllocError>
    ensures { IfOk result (λ t. string_bytes t ≡ last_line (Status.Usage fault.now)) }
{
    match fault {
        WordFault::Usage => String::from_str(alloc, "emerge: Usage\n"),
        WordFault::BadAtom { word } => {
            let word = shown(alloc, word)?;
            format!(in alloc; "emerge: Usage: bad atom {word}\n")
        }
        WordFault::BadNumber { word } => {
            let word = shown(alloc, word)?;
            format!(in alloc; "emerge: Usage: bad number {word}\n")
        }
        WordFault::Memory => Err(AllocError),
    }
}

fn limit_line(quantity: Quantity) -> &'static str
    ensures { result.now ≡ last_line (Status.Limit quantity) }
{
    match quantity {
        Quantity::Groups => "emerge: Limit: Groups\n",
        Quantity::Packages => "emerge: Limit: Packages\n",
        Quantity::Candidates => "emerge: Limit: Candidates\n",
        Quantity::Paths => "emerge: Limit: Paths\n",
        Quantity::RecordBytes => "emerge: Limit: RecordBytes\n",
    }
}

/// The last line of a run that ended so.
pub fn line_of_status(alloc: Global, status: &Status) -> Result<String, AllocError>
    ensures { IfOk result (λ t. string_bytes t ≡ last_line status.now) }
{
    match status {
        Status::Ok { groups } => format!(in alloc; "emerge: ok {groups}\n"),
        Status::BadText { path, line } => text_line(alloc, path, *line),
        Status::BadDatabase(fault) => database_line(alloc, fault),
        Status::BadJournal(fault) => broken_line(alloc, *fault),
        Status::Inconsistent(broken) => inconsistent_line(alloc, broken),
        Status::NoCandidate { atom, reasons } => unmatched_line(alloc, atom, reasons),
        Status::BacktrackLimit { refuted, .. } => refuted_line(alloc, refuted),
        Status::PlanRefused(fault) => refused_line(alloc, fault),
        Status::BuildCycle { packages } => cycle_line(alloc, packages),
        Status::NoOrder(fault) => order_line(alloc, fault),
        Status::Collision(collision) => collision_line(alloc, collision),
        Status::BadImage(bad) => bad_line(alloc, bad),
        Status::BuildFailed { package } => failed_line(alloc, package),
        Status::Usage { fault } => usage_line(alloc, fault),
        other => match fixed_line(other) {
            Some(line) => String::from_str(alloc, line),
            None => Err(AllocError),
        },
    }
}

/// The file of the configuration that isn't in form, and the line.
fn text_line(alloc: Global, path: &Path, line: u32) -> Result<String, AllocError>
    ensures { IfOk result (λ t. string_bytes t ≡
        codes "emerge: BadText: " ++ (shown path.now ++ (32 ∷ (decimal line ++ 10 ∷ [])))) }
{
    let path = shown(alloc, path.text())?;
    format!(in alloc; "emerge: BadText: {path} {line}\n")
}

/// The path at which the database is at fault.
fn database_line(alloc: Global, fault: &DatabaseFault) -> Result<String, AllocError>
    ensures { IfOk result (λ t. string_bytes t ≡
        codes "emerge: BadDatabase: " ++ (shown (place_of_fault fault.now) ++ 10 ∷ [])) }
{
    let place = shown(alloc, place_of_fault(fault))?;
    format!(in alloc; "emerge: BadDatabase: {place}\n")
}

fn place_of_fault(fault: &DatabaseFault) -> &str
    ensures { result.now ≡ place_of_fault fault.now }
{
    match fault {
        DatabaseFault::Name { path }
        | DatabaseFault::Missing { path }
        | DatabaseFault::Eapi { path }
        | DatabaseFault::Text { path, .. }
        | DatabaseFault::Dep { path, .. }
        | DatabaseFault::OwnedTwice { path }
        | DatabaseFault::Nested { path, .. } => path.text(),
        DatabaseFault::Limit { .. } | DatabaseFault::Tree(_) => "",
    }
}

fn broken_line(alloc: Global, fault: RecoverFault) -> Result<String, AllocError>
    ensures { IfOk result (λ t. string_bytes t ≡
        codes "emerge: BadJournal: " ++ (broken_text fault ++ 10 ∷ [])) }
{
    let text = broken_part(alloc, fault)?;
    format!(in alloc; "emerge: BadJournal: {text}\n")
}

/// The group whose record is broken, or the stage.
fn broken_part(alloc: Global, fault: RecoverFault) -> Result<String, AllocError>
    ensures { IfOk result (λ t. string_bytes t ≡ broken_text fault) }
{
    match fault {
        RecoverFault::BadRecord { group } => format!(in alloc; "{group} record"),
        RecoverFault::BadStage { group, index } => format!(in alloc; "{group} stage {index}"),
        RecoverFault::Limit | RecoverFault::Tree(_) => Ok(String::new(alloc)),
    }
}

fn inconsistent_line(alloc: Global, broken: &Broken) -> Result<String, AllocError>
    ensures { IfOk result (λ t. string_bytes t ≡
        codes "emerge: Inconsistent: " ++ (inconsistent_text broken.now ++ 10 ∷ [])) }
{
    let text = inconsistent_part(alloc, broken)?;
    format!(in alloc; "emerge: Inconsistent: {text}\n")
}

/// What is wrong with the packages, with those that it names.
fn inconsistent_part(alloc: Global, broken: &Broken) -> Result<String, AllocError>
    ensures { IfOk result (λ t. string_bytes t ≡ inconsistent_text broken.now) }
{
    match broken {
        Broken::Runtime { package, leaf } => lacking_part(alloc, package, leaf),
        Broken::Blocked { package, by } => {
            let text = pair_text(alloc, package, by)?;
            format!(in alloc; "Blocked {text}")
        }
        Broken::RequiredUse { package } => {
            let text = package.print(alloc)?;
            format!(in alloc; "RequiredUse {text}")
        }
        Broken::SlotTwice { package, other } => {
            let text = pair_text(alloc, package, other)?;
            format!(in alloc; "SlotTwice {text}")
        }
        Broken::Memory => Ok(String::new(alloc)),
    }
}

fn lacking_part(
    alloc: Global,
    package: &PackageId,
    leaf: &Option<Atom>,
) -> Result<String, AllocError>
    ensures { IfOk result (λ t. string_bytes t ≡
        codes "Runtime " ++ (id_text «package».now ++ (32 ∷ leaf_text leaf.now))) }
{
    let text = package.print(alloc)?;
    let leaf = leaf_text(alloc, leaf)?;
    format!(in alloc; "Runtime {text} {leaf}")
}

/// The leaf that isn't met, or a hyphen.
fn leaf_text(alloc: Global, leaf: &Option<Atom>) -> Result<String, AllocError>
    ensures { IfOk result (λ t. string_bytes t ≡ leaf_text leaf.now) }
{
    match leaf {
        Some(atom) => atom.print(alloc),
        None => String::from_str(alloc, "-"),
    }
}

fn pair_text(alloc: Global, one: &PackageId, other: &PackageId) -> Result<String, AllocError>
    ensures { IfOk result (λ t. string_bytes t ≡ pair_text one.now other.now) }
{
    let one = one.print(alloc)?;
    let other = other.print(alloc)?;
    format!(in alloc; "{one} {other}")
}

/// The rule that a plan breaks, with what it names, each word behind a space.
fn rule_text(alloc: Global, fault: &PlanRefused) -> Result<String, AllocError>
    ensures { IfOk result (λ t. string_bytes t ≡ refused_text (told fault.now)) }
{
    let mut rule = String::new(alloc);
    push_refusal(&mut rule, alloc, fault)?;
    Ok(rule)
}

fn refused_line(alloc: Global, fault: &PlanRefused) -> Result<String, AllocError>
    ensures { IfOk result (λ t. string_bytes t ≡
        codes "emerge: PlanRefused:" ++ (refused_text (told fault.now) ++ 10 ∷ [])) }
{
    let rule = rule_text(alloc, fault)?;
    format!(in alloc; "emerge: PlanRefused:{rule}\n")
}

fn order_line(alloc: Global, fault: &PlanRefused) -> Result<String, AllocError>
    ensures { IfOk result (λ t. string_bytes t ≡
        codes "emerge: NoOrder:" ++ (refused_text (told fault.now) ++ 10 ∷ [])) }
{
    let rule = rule_text(alloc, fault)?;
    format!(in alloc; "emerge: NoOrder:{rule}\n")
}

/// The packages that wait for each other.
fn cycle_line(alloc: Global, packages: &[PackageId]) -> Result<String, AllocError>
    ensures { IfOk result (λ t. string_bytes t ≡
        codes "emerge: BuildCycle:" ++ (flat_map spaced_id packages.now ++ 10 ∷ [])) }
{
    let listed = listed_ids(alloc, packages)?;
    format!(in alloc; "emerge: BuildCycle:{listed}\n")
}

/// Each package behind a space.
fn listed_ids(alloc: Global, packages: &[PackageId]) -> Result<String, AllocError>
    ensures { IfOk result (λ t. string_bytes t ≡ flat_map spaced_id packages.now) }
{
    let mut listed = String::new(alloc);
    for package in packages {
        write_id(alloc, package, &mut listed)?;
    }
    Ok(listed)
}

fn write_id(alloc: Global, package: &PackageId, text: &mut String) -> Result<(), AllocError>
    ensures { OnOk result (string_bytes text.new ≡
        string_bytes text.old ++ spaced_id «package».now) }
{
    let id = package.print(alloc)?;
    text.push_str(" ")?;
    text.push_str(id.as_str())
}

fn collision_line(alloc: Global, collision: &Collision) -> Result<String, AllocError>
    ensures { IfOk result (λ t. string_bytes t ≡
        codes "emerge: Collision: " ++ (collision_text collision.now ++ 10 ∷ [])) }
{
    let text = collision_part(alloc, collision)?;
    format!(in alloc; "emerge: Collision: {text}\n")
}

/// The rule by which a path can't be placed, with what it names.
fn collision_part(alloc: Global, collision: &Collision) -> Result<String, AllocError>
    ensures { IfOk result (λ t. string_bytes t ≡ collision_text collision.now) }
{
    match collision {
        Collision::Owned { path, owner } => {
            let path = shown(alloc, path.text())?;
            let owner = owner.print(alloc)?;
            format!(in alloc; "Owned {path} {owner}")
        }
        Collision::Claimed { path, group } => {
            let path = shown(alloc, path.text())?;
            format!(in alloc; "Claimed {path} {group}")
        }
        Collision::Ancestor { path, other } => {
            let path = shown(alloc, path.text())?;
            let other = shown(alloc, other.text())?;
            format!(in alloc; "Ancestor {path} {other}")
        }
        Collision::Unowned { path } => {
            let path = shown(alloc, path.text())?;
            format!(in alloc; "Unowned {path}")
        }
    }
}

/// What is wrong with an image, and at which path.
fn bad_line(alloc: Global, bad: &ImageBad) -> Result<String, AllocError>
    ensures { IfOk result (λ t. string_bytes t ≡
        codes "emerge: BadImage: " ++ (bad_text bad.now ++ 10 ∷ [])) }
{
    match bad {
        ImageBad::Reserved { path } => {
            let path = shown(alloc, path.text())?;
            format!(in alloc; "emerge: BadImage: Reserved {path}\n")
        }
        ImageBad::Twice { path } => {
            let path = shown(alloc, path.text())?;
            format!(in alloc; "emerge: BadImage: Twice {path}\n")
        }
        ImageBad::Large { path } => {
            let path = shown(alloc, path.text())?;
            format!(in alloc; "emerge: BadImage: Large {path}\n")
        }
        ImageBad::Link { path } => {
            let path = shown(alloc, path.text())?;
            format!(in alloc; "emerge: BadImage: Link {path}\n")
        }
    }
}

fn failed_line(alloc: Global, package: &PackageId) -> Result<String, AllocError>
    ensures { IfOk result (λ t. string_bytes t ≡
        codes "emerge: BuildFailed: " ++ (id_text «package».now ++ 10 ∷ [])) }
{
    let text = package.print(alloc)?;
    format!(in alloc; "emerge: BuildFailed: {text}\n")
}

/// How many choices were tried in vain.
fn refuted_line(alloc: Global, refuted: &[Choice]) -> Result<String, AllocError>
    ensures { IfOk result (λ t. string_bytes t ≡
        codes "emerge: BacktrackLimit: " ++ (decimal (length refuted.now) ++ 10 ∷ [])) }
{
    let tried = refuted.len();
    format!(in alloc; "emerge: BacktrackLimit: {tried}\n")
}

fn unmatched_line(alloc: Global, atom: &Atom, reasons: &[NotTaken]) -> Result<String, AllocError>
    ensures { IfOk result (λ t. string_bytes t ≡
        codes "emerge: NoCandidate: " ++ (atom_text atom.now ++
        (flat_map reason_text reasons.now ++ 10 ∷ []))) }
{
    let text = atom.print(alloc)?;
    let listed = listed_reasons(alloc, reasons)?;
    format!(in alloc; "emerge: NoCandidate: {text}{listed}\n")
}

/// Each candidate with its reason, in parentheses.
fn listed_reasons(alloc: Global, reasons: &[NotTaken]) -> Result<String, AllocError>
    ensures { IfOk result (λ t. string_bytes t ≡ flat_map reason_text reasons.now) }
{
    let mut listed = String::new(alloc);
    for reason in reasons {
        write_reason(alloc, reason, &mut listed)?;
    }
    Ok(listed)
}

fn write_reason(alloc: Global, one: &NotTaken, text: &mut String) -> Result<(), AllocError>
    ensures { OnOk result (string_bytes text.new ≡
        string_bytes text.old ++ reason_text one.now) }
{
    let id = one.id.print(alloc)?;
    text.push_str(" (")?;
    text.push_str(id.as_str())?;
    text.push_str(" ")?;
    text.push_str(word_of_reason(one.reason))?;
    text.push_str(")")
}

fn word_of_reason(reason: Reason) -> &'static str
    ensures { result.now ≡ reason_word reason }
{
    match reason {
        Reason::NoEbuild => "NoEbuild",
        Reason::Eapi => "Eapi",
        Reason::Stale => "Stale",
        Reason::BadEntry => "BadEntry",
        Reason::Keyword => "Keyword",
        Reason::Masked => "Masked",
        Reason::RequiredUse => "RequiredUse",
        Reason::NotMatched => "NotMatched",
    }
}
