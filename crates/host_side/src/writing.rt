use crate::changes::Changes;
use crate::folder::{
    Folder, Found, Stage, clear_spare, folder_of, not_a_folder, odd_object, part_before,
};
use file_tree::{Kind, Object};
use std::fs::{File, OpenFile, OpenOptions, Permissions};
use std::io::Write;
use std::os::unix::fs::{OpenOptionsExt, PermissionsExt, symlink};
use std::thread::Threads;
use std::{fs, io, str};

/// The mode of a plain file.
const PLAIN: u32 = 0o644;

/// The mode of a file that can be run, and of a folder.
const EXEC: u32 = 0o755;

/// The names that a change of one path has to do with.
#[derive(Drop)]
struct Site {
    path: String,
    /// The host's name of the object.
    target: String,
    /// The host's name of what becomes the object.
    spare: String,
}

/// Makes a path hold an object, which is durable behind the next sync.
pub fn put<R: Threads>(
    threads: &R,
    folder: &Folder,
    changes: &mut Changes,
    path: &str,
    object: &Object,
) -> io::Result<()> {
    let site = prepare(folder, changes, path)?;
    let made = match write_spare(folder.rt(), site.spare.as_str(), object) {
        Ok(Some(file)) => changes.owe(threads, file),
        Ok(None) => Ok(()),
        Err(error) => Err(error),
    };
    finish(folder, &site, made)
}

/// Makes a path hold what another one holds. A file is the very same one then, where the system lets
/// it have both names, so no byte of it is written again.
pub fn place(folder: &Folder, changes: &mut Changes, from: &str, to: &str) -> io::Result<()> {
    let stage = folder.stage(from)?;
    let site = prepare(folder, changes, to)?;
    let made = make_like(folder.rt(), &stage, site.spare.as_str());
    finish(folder, &site, made)?;
    if stage.has_other_names {
        // A file isn't renamed over itself, and then the spare name stays.
        clear_spare(folder.rt(), site.spare.as_str())?;
    }
    Ok(())
}

/// Makes a path hold nothing. Folders above it that have nothing left go at the next sync, also where
/// a stopped run has removed what was at the path, and not yet these.
pub fn remove(folder: &Folder, changes: &mut Changes, path: &str) -> io::Result<()> {
    match folder.find(path)? {
        Found::Folder => return Ok(()),
        Found::Odd => return Err(odd_object()),
        Found::Nothing => {}
        Found::Item(_) => {
            note_above(folder, changes, path)?;
            fs::remove_file(folder.rt(), folder.name_of(path)?)?;
        }
    }
    changes.note_emptied(folder.alloc(), folder_of(path))?;
    Ok(())
}

/// Makes the folders above a path, the highest first, and the names of a change of it.
fn prepare(folder: &Folder, changes: &mut Changes, path: &str) -> io::Result<Site> {
    for (at, byte) in path.as_bytes().iter().enumerate() {
        if *byte == b'/' {
            make_folder(folder, changes, part_before(path, at))?;
        }
    }
    note_above(folder, changes, path)?;
    site_of(folder, path)
}

/// Makes a folder whose parts above are folders, if none is there. It has its mode before it has its
/// name.
fn make_folder(folder: &Folder, changes: &mut Changes, path: &str) -> io::Result<()> {
    match folder.at(path)? {
        Found::Folder => return Ok(()),
        Found::Nothing => {}
        _ => return Err(not_a_folder()),
    }
    note_above(folder, changes, path)?;
    let site = site_of(folder, path)?;
    let made = new_folder(folder.rt(), site.spare.as_str());
    finish(folder, &site, made)
}

/// Renames a spare object over its target, or removes it where it couldn't be made.
fn finish(folder: &Folder, site: &Site, made: io::Result<()>) -> io::Result<()> {
    let answer = match made {
        Ok(()) => rename_over(folder, site),
        Err(error) => Err(error),
    };
    if answer.is_err() {
        // The first error is the one to tell.
        match clear_spare(folder.rt(), site.spare.as_str()) {
            Ok(()) | Err(_) => {}
        }
    }
    answer
}

/// Renames a spare object over its target. A folder there that holds but folders goes first.
fn rename_over(folder: &Folder, site: &Site) -> io::Result<()> {
    let rt = folder.rt();
    match fs::rename(rt, site.spare.as_str(), site.target.as_str()) {
        Err(error) if error.kind() == io::ErrorKind::IsADirectory => {}
        answer => return answer,
    }
    if !folder.remove_empty(site.path.as_str())? {
        return Err(io::Error::from(io::ErrorKind::DirectoryNotEmpty));
    }
    fs::rename(rt, site.spare.as_str(), site.target.as_str())
}

/// Notes that a name in the folder that holds a path is about to change.
fn note_above(folder: &Folder, changes: &mut Changes, path: &str) -> io::Result<()> {
    let above = folder.name_of(folder_of(path))?;
    changes.note(folder.alloc(), above.as_str())?;
    Ok(())
}

fn site_of(folder: &Folder, path: &str) -> io::Result<Site> {
    Ok(Site {
        path: String::from_str(folder.alloc(), path)?,
        target: folder.name_of(path)?,
        spare: folder.spare_in(folder_of(path))?,
    })
}

/// Makes the spare object of this name. A file is whole, and answered: it isn't durable yet.
fn write_spare(rt: &HostRuntime, spare: &str, object: &Object) -> io::Result<Option<File>> {
    match object.kind {
        Kind::Link => {
            let target = target_of(object)?;
            make_anew(rt, New::Link { target }, spare)?;
            Ok(None)
        }
        kind => {
            let mut file = new_file(rt, spare)?;
            file.write_all(&object.bytes)?;
            set_mode(&file, kind)?;
            Ok(Some(file))
        }
    }
}

/// Makes the spare object of this name as a stage is: another name of its file, or a copy of it where
/// the system gives it none.
fn make_like(rt: &HostRuntime, stage: &Stage, spare: &str) -> io::Result<()> {
    let name = stage.name.as_str();
    match stage.kind {
        Kind::Link => {
            let target = fs::read_link(rt, name)?;
            let target = target.as_str();
            make_anew(rt, New::Link { target }, spare)
        }
        kind => match make_anew(rt, New::Name { of: name }, spare) {
            Err(error) if is_no_name(&error) => copy(rt, kind, name, spare),
            answer => answer,
        },
    }
}

/// Whether the system gives a file no further name there: it has too many, the folder is on another
/// disk, or the disk has no such names.
fn is_no_name(error: &io::Error) -> bool {
    matches!(
        error.kind(),
        io::ErrorKind::TooManyLinks
            | io::ErrorKind::CrossesDevices
            | io::ErrorKind::PermissionDenied
            | io::ErrorKind::Unsupported
    )
}

/// Makes a file of this name as another one is. It is durable before it is renamed, as the other is.
fn copy(rt: &HostRuntime, kind: Kind, source: &str, spare: &str) -> io::Result<()> {
    let mut from = File::open(rt, source)?;
    let mut file = new_file(rt, spare)?;
    io::copy(&mut from, &mut file)?;
    set_mode(&file, kind)?;
    file.sync_all()
}

fn target_of(object: &Object) -> io::Result<&str> {
    match str::from_utf8(&object.bytes) {
        Ok(text) => Ok(text),
        Err(_) => Err(io::Error::new(
            io::ErrorKind::InvalidData,
            "the target of a link is no text",
        )),
    }
}

/// A new file of this name, in place of what a stopped run may have left there.
fn new_file(rt: &HostRuntime, name: &str) -> io::Result<File> {
    match open_new(rt, name) {
        Err(error) if is_taken(&error) => {
            clear_spare(rt, name)?;
            open_new(rt, name)
        }
        answer => answer,
    }
}

/// A new folder of this name, with its mode.
fn new_folder(rt: &HostRuntime, name: &str) -> io::Result<()> {
    make_anew(rt, New::Folder, name)?;
    fs::set_permissions(rt, name, Permissions::from_mode(EXEC))
}

/// What is to have a name, but for a file that is written.
#[derive(Clone, Copy)]
enum New<'a> {
    Folder,
    /// A link that leads to the target.
    Link { target: &'a str },
    /// The file that has another name already.
    Name { of: &'a str },
}

/// Makes something of this name, in place of what a stopped run may have left there.
fn make_anew(rt: &HostRuntime, what: New<'_>, name: &str) -> io::Result<()> {
    match make(rt, what, name) {
        Err(error) if is_taken(&error) => {
            clear_spare(rt, name)?;
            make(rt, what, name)
        }
        answer => answer,
    }
}

fn make(rt: &HostRuntime, what: New<'_>, name: &str) -> io::Result<()> {
    match what {
        New::Folder => fs::create_dir(rt, name),
        New::Link { target } => symlink(rt, target, name),
        New::Name { of } => fs::hard_link(rt, of, name),
    }
}

/// Something stands at the name already.
fn is_taken(error: &io::Error) -> bool {
    error.kind() == io::ErrorKind::AlreadyExists
}

/// A new file, which nobody else can read before it is whole.
fn open_new(rt: &HostRuntime, name: &str) -> io::Result<File> {
    OpenOptions::new()
        .write(true)
        .create_new(true)
        .mode(0o600)
        .open(rt, name)
}

/// Gives a whole file its mode.
fn set_mode(file: &File, kind: Kind) -> io::Result<()> {
    let mode = match kind {
        Kind::Exec => EXEC,
        _ => PLAIN,
    };
    file.set_permissions(Permissions::from_mode(mode))
}
