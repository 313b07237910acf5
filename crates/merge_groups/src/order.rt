ghost use Rattle.std.specs.Prelude.{◌≡◌, IfOk, map, string_bytes};
ghost use Rattle.std.specs.List.{AllByRecursion};
ghost use Rattle.basics.specs.Members.{AreDistinct};
ghost use Rattle.merge_groups.specs.Lined.{IsLined, line_begun};
ghost use Rattle.merge_groups.specs.Order.{AreInTextOrder, text_of};
ghost use Rattle.merge_groups.specs.declared.change.Change.TheVariants as changes;

use crate::change::Change;
use crate::flags::enabled_of;
use pkg_state::Pkg;
use plan_text::push_flags;
use std::alloc::{AllocError, Global};

/// A package with its line in the text of a plan.
#[derive(Drop)]
pub(crate) struct Lined<'a> {
    text: String,
    pub(crate) pkg: &'a Pkg,
}

/// `category/package-version:slot` behind a head and a space.
fn begun(alloc: Global, head: &str, pkg: &Pkg) -> Result<String, AllocError>
    ensures { IfOk result (λ text. string_bytes text ≡ line_begun head.now pkg.now) }
{
    let mut text = String::new(alloc);
    let id = pkg.facts.id.print(alloc)?;
    text.push_str(head)?;
    text.push_str(" ")?;
    text.push_str(&id)?;
    text.push_str(":")?;
    text.push_str(pkg.facts.slot.text())?;
    Ok(text)
}

fn removal_text(alloc: Global, pkg: &Pkg) -> Result<String, AllocError>
    ensures { IfOk result (λ text. string_bytes text ≡ text_of changes.Removal pkg.now) }
{
    begun(alloc, "remove", pkg)
}

fn addition_text(alloc: Global, pkg: &Pkg) -> Result<String, AllocError>
    ensures { IfOk result (λ text. string_bytes text ≡ text_of changes.Addition pkg.now) }
{
    let mut text = begun(alloc, "add", pkg)?;
    let flags = enabled_of(alloc, pkg)?;
    text.push_str("/")?;
    text.push_str(pkg.facts.subslot.text())?;
    push_flags(&mut text, &flags)?;
    Ok(text)
}

fn with_line<'a>(alloc: Global, change: Change, pkg: &'a Pkg) -> Result<Lined<'a>, AllocError>
    ensures text { IfOk result (IsLined change) }
    ensures pkg { IfOk result (λ l. l.pkg.now ≡ pkg.now) }
{
    let text = match change {
        Change::Removal => removal_text(alloc, pkg)?,
        Change::Addition => addition_text(alloc, pkg)?,
    };
    Ok(Lined { text, pkg })
}

fn all_lined<'a>(
    alloc: Global,
    change: Change,
    pkgs: &[&'a Pkg],
) -> Result<Vec<Lined<'a>>, AllocError>
    ensures texts { IfOk result (λ v. AllByRecursion (IsLined change) v.items) }
    ensures pkgs { IfOk result (λ v. map (λ l. l.pkg.now) v.items ≡ map (λ p. p.now) pkgs.now) }
{
    let mut all = Vec::with_capacity(alloc, pkgs.len())?;
    for &pkg in pkgs {
        all.push(with_line(alloc, change, pkg)?)?;
    }
    Ok(all)
}

/// The packages, in the order of their lines in the text of a plan.
pub(crate) fn in_text_order<'a>(
    alloc: Global,
    change: Change,
    pkgs: &[&'a Pkg],
) -> Result<Vec<Lined<'a>>, AllocError>
    requires { AreDistinct (map (text_of change) (map (λ p. p.now) pkgs.now)) }
    ensures { IfOk result (λ v. AreInTextOrder change (map (λ p. p.now) pkgs.now)
        (map (λ l. l.pkg.now) v.items)) }
{
    let mut all = all_lined(alloc, change, pkgs)?;
    all.sort_by(|a, b| a.text.cmp(&b.text))?;
    Ok(all)
}
