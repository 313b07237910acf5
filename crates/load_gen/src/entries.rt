ghost use Rattle.std.specs.Prelude.{◌≡◌, IfOk, string_bytes};
ghost use Rattle.load_gen.specs.Loads.{built_on, entry_text, name_of, need_line, needed_by};

use std::alloc::{AllocError, Global};

/// The name of a package.
pub(crate) fn name_of(alloc: Global, number: u32) -> Result<String, AllocError>
    ensures { IfOk result (λ t. string_bytes t ≡ name_of number) }
{
    format!(in alloc; "load/p{number}")
}

/// The package that one of so many needs to run, if it needs one.
fn needed_by(count: u32, number: u32) -> Option<u32>
    ensures { result ≡ needed_by count number }
{
    if number > 0 {
        Some(number / 2)
    } else if count > 1 {
        Some(1)
    } else {
        None
    }
}

/// The package that one is built with, if it is built with one.
fn built_on(number: u32) -> Option<u32>
    ensures { result ≡ built_on number }
{
    if number >= 10 && number % 10 == 0 {
        Some(number / 10)
    } else {
        None
    }
}

/// The line of an entry that says which package is needed, if one is.
fn need_line(alloc: Global, key: &str, needed: Option<u32>) -> Result<String, AllocError>
    ensures { IfOk result (λ t. string_bytes t ≡ need_line key.now needed) }
{
    match needed {
        Some(number) => format!(in alloc; "{key}=load/p{number}\n"),
        None => Ok(String::new(alloc)),
    }
}

/// The entry of one of so many packages in the cache.
pub(crate) fn entry_text(alloc: Global, count: u32, number: u32) -> Result<String, AllocError>
    ensures { IfOk result (λ t. string_bytes t ≡ entry_text count number) }
{
    let mut text = need_line(alloc, "DEPEND", built_on(number))?;
    let run = need_line(alloc, "RDEPEND", needed_by(count, number))?;
    text.push_str("EAPI=8\nKEYWORDS=amd64\n")?;
    text.push_str(run.as_str())?;
    text.push_str("SLOT=0\n_md5_=d41d8cd98f00b204e9800998ecf8427e\n")?;
    Ok(text)
}
