ghost use Rattle.std.specs.Prelude.{◌≡◌, ◌++◌, ◌∷◌, [], IfOk, List, OnOk, codes, filter, map};
ghost use Rattle.std.specs.List.{AllZip};
ghost use Rattle.config_vars.specs.Values.{stacked};
ghost use Rattle.profile_lines.specs.declared.item.Item.{Item as ItemValue};
ghost use Rattle.visible_set.specs.Configured.{IsLineOf, is_for_some, own_keyword};

use basics::Text;
use config_vars::{FileVars, last_value, stacked};
use profile_lines::Item;
use std::alloc::{AllocError, Global};
use visible_rules::KeywordLine;

/// Which keywords are accepted.
#[derive(Drop)]
pub(crate) struct Accepted {
    pub(crate) standing: Vec<Text>,
    /// What a line without words says.
    pub(crate) bare: Vec<Text>,
    pub(crate) lines: Vec<KeywordLine>,
}

pub(crate) fn accepted_by(
    alloc: Global,
    items: &[Item],
    files: &[FileVars],
) -> Result<Accepted, AllocError>
    ensures standing { IfOk result (λ a. a.standing.items ≡
        stacked (codes "ACCEPT_KEYWORDS") files.now) }
    ensures bare { IfOk result (λ a. a.bare.items ≡ own_keyword files.now) }
    ensures lines { IfOk result (λ a. AllZip IsLineOf (filter is_for_some items.now)
        a.lines.items) }
{
    Ok(Accepted {
        standing: standing(alloc, files)?,
        bare: own_keyword(alloc, files)?,
        lines: lines_of(alloc, items)?,
    })
}

/// The keywords that are accepted of all packages.
fn standing(alloc: Global, files: &[FileVars]) -> Result<Vec<Text>, AllocError>
    ensures { IfOk result (λ v. v.items ≡ stacked (codes "ACCEPT_KEYWORDS") files.now) }
{
    let words = stacked(alloc, files, "ACCEPT_KEYWORDS")?;
    texts_of(alloc, &words)
}

fn texts_of(alloc: Global, words: &[&str]) -> Result<Vec<Text>, AllocError>
    ensures { IfOk result (λ v. v.items ≡ map (λ x. x.now) words.now) }
{
    let mut texts = Vec::new(alloc);
    for word in words {
        texts.push(Text::new(alloc, word)?)?;
    }
    Ok(texts)
}

/// The keyword `~ARCH`, where ARCH has a value.
fn own_keyword(alloc: Global, files: &[FileVars]) -> Result<Vec<Text>, AllocError>
    ensures { IfOk result (λ v. v.items ≡ own_keyword files.now) }
{
    let mut texts = Vec::new(alloc);
    if let Some(arch) = last_value(files, "ARCH") {
        texts.push(testing(alloc, arch)?)?;
    }
    Ok(texts)
}

/// The keyword of packages that are tested on this architecture.
fn testing(alloc: Global, arch: &str) -> Result<Text, AllocError>
    ensures { IfOk result (λ t. t ≡ codes "~" ++ arch.now) }
{
    let keyword = format!(in alloc; "~{arch}")?;
    Ok(Text::from_string(keyword))
}

/// The lines of keywords.
fn lines_of(alloc: Global, items: &[Item]) -> Result<Vec<KeywordLine>, AllocError>
    ensures { IfOk result (λ v. AllZip IsLineOf (filter is_for_some items.now) v.items) }
{
    let mut lines = Vec::new(alloc);
    for item in items {
        add_line(alloc, item, &mut lines)?;
    }
    Ok(lines)
}

fn add_line(alloc: Global, item: &Item, lines: &mut Vec<KeywordLine>) -> Result<(), AllocError>
    ensures { OnOk result ((before : List ItemValue) → AllZip IsLineOf before lines.old.items →
        AllZip IsLineOf (before ++ filter is_for_some (item.now ∷ [])) lines.new.items) }
{
    if let Some(atom) = &item.atom {
        lines.push(KeywordLine {
            atom: atom.try_clone()?,
            words: copies(alloc, &item.keywords)?,
        })?;
    }
    Ok(())
}

fn copies(alloc: Global, texts: &[Text]) -> Result<Vec<Text>, AllocError>
    ensures { IfOk result (λ v. v.items ≡ texts.now) }
{
    let mut copies = Vec::new(alloc);
    for text in texts {
        copies.push(text.try_clone()?)?;
    }
    Ok(copies)
}
