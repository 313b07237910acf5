ghost use Rattle.std.specs.Prelude.{◌<◌, IfErr, IfOk, map, string_bytes};
ghost use Rattle.emerge_words.specs.Host.{IsHost};
ghost use Rattle.emerge_words.specs.Requests.{IsRefusal};

use crate::reading::read;
use crate::request::{Request, WordFault};
use std::alloc::Global;

/// What the words say of the host.
#[derive(Debug, Drop)]
pub struct Host {
    /// The folder that is the root.
    pub tree: String,
    /// The folder that has the images.
    pub images: String,
    /// The program that prepares an image, if one does.
    pub build_with: Option<String>,
    /// How many builders there shall be: one for each job.
    pub builders: u32,
}

/// What the words say of the host, or why they are no command.
pub fn host_of(alloc: Global, words: &[String]) -> Result<Host, WordFault>
    ensures host { IfOk result (IsHost (map string_bytes words.now)) }
    ensures builders { IfOk result (λ host. 0 < host.builders) }
    ensures refused { IfErr result (IsRefusal (map string_bytes words.now)) }
{
    let Request {
        tree,
        images,
        build_with,
        jobs,
        ..
    } = read(alloc, words)?;
    Ok(Host {
        tree,
        images,
        build_with,
        builders: jobs,
    })
}
