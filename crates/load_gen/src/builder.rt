ghost use Rattle.std.specs.Prelude.{◌≡◌, IfOk, length, true};
ghost use Rattle.load_gen.specs.Images.{image_of};

use build_pool::{BuildStop, Builder, Order};
use dep_atom::PackageId;
use file_tree::{Entry, Kind, Object, Path};
use std::alloc::{AllocError, Global};

/// A builder of the packages of a load. It never fails.
#[derive(Drop)]
pub struct LoadBuilder {
    alloc: Global,
    id: u32,
    /// The image of the order that was started last.
    image: Vec<Entry>,
}

impl LoadBuilder {
    /// A builder of this id.
    pub fn new(alloc: Global, id: u32) -> LoadBuilder
        ensures { result.id ≡ id }
    {
        LoadBuilder {
            alloc,
            id,
            image: Vec::new(alloc),
        }
    }
}

/// The image of a package. The text of its path is one, so that only memory can be wanting.
fn image_of(alloc: Global, id: &PackageId) -> Result<Vec<Entry>, AllocError>
    ensures { IfOk result (λ image. image.items ≡ image_of id.now) }
{
    let name = id.name.package.text();
    let path = format!(in alloc; "usr/share/load/{name}")?;
    let Ok(path) = Path::parse(alloc, path.as_str()) else {
        return Err(AllocError);
    };
    let mut bytes: Vec<u8> = name.as_bytes().iter().skip(1).copied().collect(alloc)?;
    bytes.push(b'\n')?;
    let object = Object {
        kind: Kind::Plain,
        bytes,
    };
    let mut image = Vec::new(alloc);
    image.push(Entry { path, object })?;
    Ok(image)
}

impl Builder for LoadBuilder {
    ghost tells = { true };

    ghost number = { λ b. b.id };

    ghost faults = { λ _. 0 };

    ghost told = { λ _ order. image_of order.id };

    ghost started = { λ b. length b.image.items };

    ghost image = { λ b. b.image.items };

    fn id(&self) -> u32 {
        self.id
    }

    fn fault_count(&self) -> u64 {
        0
    }

    fn start(&mut self, order: &Order) -> Result<u32, BuildStop> {
        let Ok(image) = image_of(self.alloc, &order.id) else {
            return Err(BuildStop::Memory);
        };
        let Ok(count) = u32::try_from(image.len()) else {
            return Err(BuildStop::Memory);
        };
        self.image = image;
        Ok(count)
    }

    fn entry(&mut self, index: u32) -> Result<Entry, BuildStop> {
        let entry = &self.image[index as usize];
        match entry.try_clone() {
            Ok(copy) => Ok(copy),
            Err(_) => Err(BuildStop::Memory),
        }
    }
}
