use crate::spare::{SPARE, is_spare};
use file_tree::{Kind, Look, Object, Path, PathFault};
use std::alloc::{AllocError, Global};
use std::collections::BTreeSet;
use std::os::unix::fs::MetadataExt;
use std::{fs, io};

/// The bits of a mode that let anybody run a file.
const RUN_BITS: u32 = 0o111;

/// What stands at a name of the host.
#[derive(Clone, Copy, Debug, PartialEq, Eq)]
pub enum Found {
    Nothing,
    Folder,
    Item(Kind),
    /// A device, a pipe or a socket.
    Odd,
}

/// What is to be placed elsewhere.
#[derive(Debug, Drop)]
pub struct Stage {
    pub kind: Kind,
    /// The host's name of it.
    pub name: String,
    /// Whether it has other names beside that, one of which may be the place.
    pub has_other_names: bool,
}

/// How far a path leads through folders.
#[derive(Drop)]
pub struct Reached<'a> {
    /// The folders above the path that are there, the highest first.
    pub folders: Vec<&'a str>,
    /// What stands below them on the way, at the path itself where all above it are folders.
    pub next: Found,
}

/// A folder of the host, and what is below it. No link is followed below it.
#[derive(Drop)]
pub struct Folder {
    rt: HostRuntime,
    /// The name of the folder without a slash at its end: for the top of the host no text.
    name: String,
    /// Whether this is a tree, in which spare objects of a stopped run may lie.
    is_tree: bool,
}

impl Folder {
    /// The folder of this name.
    pub fn new(rt: HostRuntime, name: &str, is_tree: bool) -> Result<Folder, AllocError> {
        let name = String::from_str(rt.alloc(), name.trim_end_matches('/'))?;
        Ok(Folder { rt, name, is_tree })
    }

    /// What the folder is reached by.
    pub fn rt(&self) -> &HostRuntime {
        &self.rt
    }

    /// Where its names and bytes take their memory.
    pub fn alloc(&self) -> Global {
        self.rt.alloc()
    }

    /// The host's name of what is at a path below; that of the folder itself where there is none.
    pub fn name_of(&self, path: &str) -> Result<String, AllocError> {
        let name = self.name.as_str();
        format!(in self.alloc(); "{name}/{path}")
    }

    /// What stands at a path. A part above it that is a link or no folder is an error.
    pub fn find(&self, path: &str) -> io::Result<Found> {
        match self.metadata_of(path)? {
            Some(metadata) => Ok(found_by(&metadata)),
            None => Ok(Found::Nothing),
        }
    }

    /// The metadata of what stands at a path. A part above it that is a link or no folder is an error.
    fn metadata_of(&self, path: &str) -> io::Result<Option<fs::Metadata>> {
        for (at, byte) in path.as_bytes().iter().enumerate() {
            if *byte != b'/' {
                continue;
            }
            match self.at(part_before(path, at))? {
                Found::Folder => {}
                Found::Nothing => return Ok(None),
                _ => return Err(not_a_folder()),
            }
        }
        self.metadata_at(path)
    }

    /// What stands at a path whose parts above are folders.
    pub fn at(&self, path: &str) -> io::Result<Found> {
        match self.metadata_at(path)? {
            Some(metadata) => Ok(found_by(&metadata)),
            None => Ok(Found::Nothing),
        }
    }

    /// The metadata of what stands at a path whose parts above are folders.
    fn metadata_at(&self, path: &str) -> io::Result<Option<fs::Metadata>> {
        match fs::symlink_metadata(&self.rt, self.name_of(path)?) {
            Ok(metadata) => Ok(Some(metadata)),
            Err(error) if error.kind() == io::ErrorKind::NotFound => Ok(None),
            Err(error) => Err(error),
        }
    }

    /// What is to be placed elsewhere, from this path.
    pub fn stage(&self, path: &str) -> io::Result<Stage> {
        let Some(metadata) = self.metadata_of(path)? else {
            return Err(nothing_to_place());
        };
        let Found::Item(kind) = found_by(&metadata) else {
            return Err(nothing_to_place());
        };
        let has_other_names = metadata.nlink() > 1;
        Ok(Stage {
            kind,
            name: self.name_of(path)?,
            has_other_names,
        })
    }

    /// How far a path leads through folders. What a stopped run has left in them goes, if it can.
    pub fn reach<'a>(&self, path: &'a str) -> io::Result<Reached<'a>> {
        let mut folders = Vec::new(self.alloc());
        folders.push("")?;
        self.try_clearing("");
        for (at, byte) in path.as_bytes().iter().enumerate() {
            if *byte != b'/' {
                continue;
            }
            let above = part_before(path, at);
            let next = self.at(above)?;
            if next != Found::Folder {
                return Ok(Reached { folders, next });
            }
            folders.push(above)?;
            self.try_clearing(above);
        }
        let next = self.at(path)?;
        Ok(Reached { folders, next })
    }

    /// Removes the spare object in a folder, if there is one. What can't go stays, as where a run may
    /// only read: it is in no path.
    fn try_clearing(&self, folder: &str) {
        match self.clear_spare_in(folder) {
            Ok(()) | Err(_) => {}
        }
    }

    /// Removes a folder that is there, where nothing but folders is below it. What can't go stays.
    pub fn try_removing(&self, path: &str) {
        match self.remove_empty(path) {
            Ok(_) | Err(_) => {}
        }
    }

    /// Removes the folder at a path, where nothing is left in it. Whether nothing is there then; what
    /// can't go stays, as what is reached by a link now.
    pub fn prune(&self, path: &str) -> bool {
        match self.find(path) {
            Ok(Found::Folder) => self.remove_bare(path).is_ok(),
            Ok(found) => found == Found::Nothing,
            Err(_) => false,
        }
    }

    /// Removes a folder that has nothing but a spare object.
    fn remove_bare(&self, path: &str) -> io::Result<()> {
        self.clear_spare_in(path)?;
        fs::remove_dir(&self.rt, self.name_of(path)?)
    }

    /// The host's name of a spare object in a folder.
    pub fn spare_in(&self, folder: &str) -> Result<String, AllocError> {
        let inside = self.below(folder, SPARE)?;
        self.name_of(inside.as_str())
    }

    /// Removes the spare object in a folder, if there is one.
    pub fn clear_spare_in(&self, folder: &str) -> io::Result<()> {
        clear_spare(&self.rt, self.spare_in(folder)?.as_str())
    }

    /// How a path looks: a folder is one only where something is below it.
    pub fn look(&self, path: &str) -> io::Result<Look> {
        match self.find(path)? {
            Found::Nothing => Ok(Look::Nothing),
            Found::Item(kind) => Ok(Look::Item(kind)),
            Found::Odd => Err(odd_object()),
            Found::Folder => match self.empty_folders(path)? {
                Some(_) => Ok(Look::Nothing),
                None => Ok(Look::Folder),
            },
        }
    }

    /// A folder and the folders below it, each behind the one that holds it, where nothing else is
    /// below it.
    pub fn empty_folders(&self, path: &str) -> io::Result<Option<Vec<String>>> {
        let mut folders = Vec::new(self.alloc());
        folders.push(String::from_str(self.alloc(), path)?)?;
        for at in 0..usize::MAX {
            if at >= folders.len() {
                return Ok(Some(folders));
            }
            let folder = folders[at].clone()?;
            if self.holds_some(folder.as_str(), &mut folders)? {
                return Ok(None);
            }
        }
        Err(too_many())
    }

    /// Removes a folder that is there, where nothing but folders is below it. Whether it is gone.
    pub fn remove_empty(&self, path: &str) -> io::Result<bool> {
        let Some(folders) = self.empty_folders(path)? else {
            return Ok(false);
        };
        for folder in folders.iter().rev() {
            self.remove_bare(folder.as_str())?;
        }
        Ok(true)
    }

    /// Whether anything but folders and spare objects is right in a folder; its folders are added.
    fn holds_some(&self, folder: &str, folders: &mut Vec<String>) -> io::Result<bool> {
        for entry in fs::read_dir(&self.rt, self.name_of(folder)?)? {
            let entry = match entry {
                Ok(entry) => entry,
                Err(error) if error.kind() == io::ErrorKind::InvalidFilename => return Ok(true),
                Err(error) => return Err(error),
            };
            if self.is_spare(entry.file_name()) {
                continue;
            }
            match found_by(&entry.metadata()?) {
                Found::Folder => folders.push(self.below(folder, entry.file_name())?)?,
                _ => return Ok(true),
            }
        }
        Ok(false)
    }

    /// The object at a path.
    pub fn read(&self, path: &str) -> io::Result<Option<Object>> {
        match self.find(path)? {
            Found::Nothing | Found::Folder => Ok(None),
            Found::Odd => Err(odd_object()),
            Found::Item(Kind::Link) => {
                let target = fs::read_link(&self.rt, self.name_of(path)?)?;
                let bytes = Vec::from_slice(self.alloc(), target.as_str().as_bytes())?;
                Ok(Some(object(Kind::Link, bytes)))
            }
            Found::Item(kind) => {
                let bytes = fs::read(&self.rt, self.name_of(path)?)?;
                Ok(Some(object(kind, bytes)))
            }
        }
    }

    /// All paths of the folder, which has to be there.
    pub fn list_all(&self) -> io::Result<BTreeSet<Path>> {
        match self.find("")? {
            Found::Nothing => Err(io::Error::from(io::ErrorKind::NotFound)),
            _ => self.list(""),
        }
    }

    /// The paths below a path, or all of them where it has no text. What is no object, or has a name
    /// that no path has, is an error.
    pub fn list(&self, path: &str) -> io::Result<BTreeSet<Path>> {
        let mut paths = BTreeSet::new(self.alloc());
        let mut folders = Vec::new(self.alloc());
        match self.find(path)? {
            Found::Nothing => return Ok(paths),
            Found::Folder => folders.push(String::from_str(self.alloc(), path)?)?,
            _ => return Err(not_a_folder()),
        }
        for _ in 0..u64::MAX {
            let Some(folder) = folders.pop() else {
                return Ok(paths);
            };
            self.list_right_in(folder.as_str(), &mut folders, &mut paths)?;
        }
        Err(too_many())
    }

    /// Adds the paths and the folders right in a folder.
    fn list_right_in(
        &self,
        folder: &str,
        folders: &mut Vec<String>,
        paths: &mut BTreeSet<Path>,
    ) -> io::Result<()> {
        for entry in fs::read_dir(&self.rt, self.name_of(folder)?)? {
            let entry = entry?;
            let path = self.below(folder, entry.file_name())?;
            if self.is_spare(entry.file_name()) {
                clear_spare(&self.rt, self.name_of(path.as_str())?.as_str())?;
                continue;
            }
            match found_by(&entry.metadata()?) {
                Found::Folder => folders.push(path)?,
                Found::Item(_) => {
                    paths.insert(path_of(self.alloc(), path.as_str())?)?;
                }
                _ => return Err(odd_object()),
            }
        }
        Ok(())
    }

    /// Whether a name is that of a spare object of a stopped run.
    fn is_spare(&self, name: &str) -> bool {
        self.is_tree && is_spare(name)
    }

    /// The path of what has a name in a folder.
    pub fn below(&self, folder: &str, name: &str) -> Result<String, AllocError> {
        if folder.is_empty() {
            return String::from_str(self.alloc(), name);
        }
        format!(in self.alloc(); "{folder}/{name}")
    }
}

fn object(kind: Kind, bytes: Vec<u8>) -> Object {
    Object { kind, bytes }
}

/// The part of a text before a place.
pub fn part_before(path: &str, at: usize) -> &str {
    match path.get(..at) {
        Some(part) => part,
        None => path,
    }
}

/// The folder that holds a path: no text where that is the top.
pub fn folder_of(path: &str) -> &str {
    match path.rsplit_once('/') {
        Some((above, _)) => above,
        None => "",
    }
}

/// What metadata says of an object.
fn found_by(metadata: &fs::Metadata) -> Found {
    let what = metadata.file_type();
    if what.is_dir() {
        Found::Folder
    } else if what.is_symlink() {
        Found::Item(Kind::Link)
    } else if !what.is_file() {
        Found::Odd
    } else if metadata.mode() & RUN_BITS == 0 {
        Found::Item(Kind::Plain)
    } else {
        Found::Item(Kind::Exec)
    }
}

/// Removes the spare object of this name, if there is one. A folder goes with all below it: it never
/// had its name, so nothing below it had one either.
pub fn clear_spare(rt: &HostRuntime, name: &str) -> io::Result<()> {
    match fs::remove_file(rt, name) {
        Ok(()) => Ok(()),
        Err(error) if error.kind() == io::ErrorKind::NotFound => Ok(()),
        Err(error) if error.kind() == io::ErrorKind::IsADirectory => fs::remove_dir_all(rt, name),
        Err(error) => Err(error),
    }
}

fn path_of(alloc: Global, text: &str) -> io::Result<Path> {
    match Path::parse(alloc, text) {
        Ok(path) => Ok(path),
        Err(PathFault::Memory) => Err(io::Error::from(AllocError)),
        Err(_) => Err(io::Error::new(
            io::ErrorKind::InvalidFilename,
            "a name below it is in no path",
        )),
    }
}

/// The error of a path whose parts above aren't all folders.
pub fn not_a_folder() -> io::Error {
    io::Error::new(
        io::ErrorKind::NotADirectory,
        "a link or a file stands where a folder is wanted",
    )
}

/// The error of a device, a pipe or a socket.
pub fn odd_object() -> io::Error {
    io::Error::new(
        io::ErrorKind::Unsupported,
        "it is, or has below it, a device, a pipe or a socket",
    )
}

fn nothing_to_place() -> io::Error {
    io::Error::new(io::ErrorKind::NotFound, "nothing is to be placed")
}

/// The error of folders that never end.
pub fn too_many() -> io::Error {
    io::Error::other("too many folders")
}
