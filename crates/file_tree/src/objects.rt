ghost use Rattle.std.specs.Prelude.{◌≡◌, IfOk};

use crate::paths::Path;
use std::alloc::AllocError;
use std::marker::Model;

/// The kind of an object: a file that is not executable, one that is, or a symbolic link.
#[derive(Clone, Copy, Debug, PartialEq, Eq)]
pub enum Kind {
    Plain,
    Exec,
    Link,
}

/// What a path holds. Of a link, `bytes` is the target.
#[derive(Debug, Drop)]
pub struct Object {
    pub kind: Kind,
    pub bytes: Vec<u8>,
}

impl Model for Object {
    ghost use Rattle.file_tree.specs.ObjectValue.{ObjectValue};

    ghost Value = { ObjectValue };

    ghost view = { λ o. record { kind = o.kind; bytes = o.bytes.items } };
}

impl Object {
    pub fn try_clone(&self) -> Result<Object, AllocError>
        ensures { IfOk result (λ o. o ≡ self.now) }
    {
        let bytes = self.bytes.clone()?;
        Ok(Object {
            kind: self.kind,
            bytes,
        })
    }
}

/// An object and the path that is to hold it.
#[derive(Debug, Drop)]
pub struct Entry {
    pub path: Path,
    pub object: Object,
}

impl Entry {
    pub fn try_clone(&self) -> Result<Entry, AllocError>
        ensures { IfOk result (λ e. e ≡ self.now) }
    {
        Ok(Entry {
            path: self.path.try_clone()?,
            object: self.object.try_clone()?,
        })
    }
}

/// What a look at a path finds: nothing at it or below it, an object, or objects below it alone.
#[derive(Clone, Copy, Debug, PartialEq, Eq)]
pub enum Look {
    Nothing,
    Item(Kind),
    Folder,
}
