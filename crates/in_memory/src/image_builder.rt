ghost use Rattle.std.specs.Prelude.{◌≡◌, IfOk, bytes_eq, length, string_bytes, true};
ghost use Rattle.dep_atom.specs.Ids.{id_text};
ghost use Rattle.in_memory.specs.Images.{image_of};

use crate::packed::Packed;
use build_pool::{BuildStop, Builder, Order};
use dep_atom::PackageId;
use file_tree::Entry;
use std::alloc::{AllocError, Global};

/// A builder with an image for each package, which is empty where it has no entry of that. One that
/// is made to fail does so at each `start`.
#[derive(Drop)]
pub struct ImageBuilder {
    alloc: Global,
    id: u32,
    fails: bool,
    faults: u64,
    entries: Vec<Packed>,
    /// The image of the order that was started last.
    image: Vec<Entry>,
}

impl ImageBuilder {
    pub fn new(alloc: Global, id: u32, entries: Vec<Packed>) -> ImageBuilder
        ensures id { result.id ≡ id }
        ensures entries { result.entries.items ≡ entries.items }
    {
        ImageBuilder {
            alloc,
            id,
            fails: false,
            faults: 0,
            entries,
            image: Vec::new(alloc),
        }
    }

    /// Makes each `start` from now on fail.
    pub fn fail(&mut self) {
        self.fails = true;
    }
}

/// Whether the entry is one of this package.
fn is_of(name: &str, entry: &Packed) -> bool
    ensures { result ≡ bytes_eq (string_bytes entry.now.of) name.now }
{
    entry.of.as_str() == name
}

/// The image of a package.
fn image_of(alloc: Global, entries: &[Packed], id: &PackageId) -> Result<Vec<Entry>, AllocError>
    ensures { IfOk result (λ image. image.items ≡ image_of entries.now (id_text id.now)) }
{
    let name = id.print(alloc)?;
    let mut image = Vec::new(alloc);
    for one in entries {
        if is_of(name.as_str(), one) {
            image.push(one.entry.try_clone()?)?;
        }
    }
    Ok(image)
}

impl Builder for ImageBuilder {
    ghost tells = { true };

    ghost number = { λ b. b.id };

    ghost faults = { λ b. b.faults };

    ghost told = { λ b order. image_of b.entries.items (id_text order.id) };

    ghost started = { λ b. length b.image.items };

    ghost image = { λ b. b.image.items };

    fn id(&self) -> u32 {
        self.id
    }

    fn fault_count(&self) -> u64 {
        self.faults
    }

    fn start(&mut self, order: &Order) -> Result<u32, BuildStop> {
        if self.fails {
            self.faults = self.faults.saturating_add(1);
            return Err(BuildStop::Failed);
        }
        let Ok(image) = image_of(self.alloc, &self.entries, &order.id) else {
            return Err(BuildStop::Memory);
        };
        let Ok(count) = u32::try_from(image.len()) else {
            return Err(BuildStop::Memory);
        };
        self.image = image;
        Ok(count)
    }

    fn entry(&mut self, index: u32) -> Result<Entry, BuildStop> {
        let entry = &self.image[index as usize];
        match entry.try_clone() {
            Ok(copy) => Ok(copy),
            Err(_) => Err(BuildStop::Memory),
        }
    }
}
