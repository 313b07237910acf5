/// The root of the host that stands for the tree where the words name none.
const HOST_ROOT: &str = "/";

/// The folder of the images where the words name none.
const HOST_IMAGES: &str = "/var/cache/portage/images";

/// The text of an option among the words, if it is given.
pub(crate) fn value_of<'a>(words: &'a [String], name: &str) -> Option<&'a str> {
    let mut is_next = false;
    for word in words {
        if is_next {
            return Some(word.as_str());
        }
        if let Some(value) = value_in(word.as_str(), name) {
            return Some(value);
        }
        is_next = word.strip_prefix("--") == Some(name);
    }
    None
}

/// The text of an option in one word.
fn value_in<'a>(word: &'a str, name: &str) -> Option<&'a str> {
    word.strip_prefix("--")?
        .strip_prefix(name)?
        .strip_prefix('=')
}

/// The folder of the tree, without a slash at its end: no text for the root of the host.
pub(crate) fn root_of(words: &[String]) -> &str {
    folder_of(words, "tree", HOST_ROOT)
}

/// The folder of the images, without a slash at its end.
pub(crate) fn images_of(words: &[String]) -> &str {
    folder_of(words, "images", HOST_IMAGES)
}

fn folder_of<'a>(words: &'a [String], name: &str, otherwise: &'static str) -> &'a str {
    match value_of(words, name) {
        Some(folder) => folder.trim_end_matches('/'),
        None => otherwise.trim_end_matches('/'),
    }
}

/// Whether the words name this path of the tree as the file of a plan.
pub(crate) fn names_plan(words: &[String], path: &str) -> bool {
    match value_of(words, "plan") {
        Some(named) => match named.strip_prefix('/') {
            Some(rest) => rest == path,
            None => named == path,
        },
        None => false,
    }
}

/// Whether the words ask for packages to be taken away.
pub(crate) fn is_unmerge(words: &[String]) -> bool {
    words.iter().any(|word| word.as_str() == "--unmerge")
}
