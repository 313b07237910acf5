ghost use Rattle.std.specs.Prelude.{◌≡◌, ◌≤◌, ◌++◌, ◌∷◌, [], false, length, string_bytes, IfOk};
ghost use Rattle.std.specs.Prelude.{OnOk};
ghost use Rattle.std.specs.Process.{command_args, command_program};
ghost use Rattle.dep_atom.specs.Ids.{id_text};
ghost use Rattle.file_tree.specs.Disk.{Rose};
ghost use Rattle.host_side.specs.Words.{order_words};

use crate::faults::{Faults, is_memory};
use crate::folder::Folder;
use crate::programs;
use crate::progress::{Count, Progress};
use crate::tree::in_order;
use build_pool::{BuildStop, Builder, Order};
use dep_atom::PackageId;
use file_tree::{Entry, Path};
use std::alloc::{AllocError, Global};
use std::process::{Command, Stdio};
use std::{fmt, io};

/// A builder whose image of a package is what the folder `category/package-version` holds below a
/// folder of images.
#[derive(Drop)]
pub struct FolderBuilder {
    rt: HostRuntime,
    images: String,
    id: u32,
    faults: Faults,
    progress: Progress,
    /// The folder of the image that was started last, its package and its paths.
    image: Folder,
    package: String,
    paths: Vec<Path>,
}

impl FolderBuilder {
    /// A builder of this id over a folder of images.
    pub fn new(
        rt: HostRuntime,
        images: &str,
        id: u32,
        progress: Progress,
    ) -> Result<FolderBuilder, AllocError>
        ensures { IfOk result (λ b. b.id ≡ id) }
    {
        Ok(FolderBuilder {
            rt,
            images: String::from_str(rt.alloc(), images)?,
            id,
            faults: Faults::new(progress),
            progress,
            image: Folder::new(rt, images, false)?,
            package: String::new(rt.alloc()),
            paths: Vec::new(rt.alloc()),
        })
    }

    /// Tells and counts a failure, unless it is want of memory.
    fn fault(&mut self, call: &str, subject: &str, error: io::Error) -> BuildStop
        ensures same_id { self.new.id ≡ self.old.id }
        ensures same_paths { self.new.paths.items ≡ self.old.paths.items }
        ensures count { self.old.faults.count ≤ self.new.faults.count }
        ensures rose { result ≡ BuildStop.Failed →
            Rose self.old.faults.count self.new.faults.count }
    {
        if is_memory(&error) {
            return BuildStop::Memory;
        }
        self.faults.tell(&self.rt, call, subject, error);
        BuildStop::Failed
    }

    /// The image of a package: its folder, and the paths below it.
    fn open(&self, id: &PackageId) -> io::Result<(Folder, Vec<Path>)> {
        let name = name_of_image(self.rt.alloc(), self.images.as_str(), id)?;
        let image = Folder::new(self.rt, name.as_str(), false)?;
        let paths = in_order(self.rt.alloc(), image.list_all()?)?;
        Ok((image, paths))
    }
}

/// The folder of a package's image below that of all images.
fn name_of_image(alloc: Global, images: &str, id: &PackageId) -> Result<String, AllocError>
    ensures { IfOk result (λ name. string_bytes name ≡ images.now ++ 47 ∷ id_text id.now) }
{
    let word = id.print(alloc)?;
    format!(in alloc; "{images}/{word}")
}

impl Builder for FolderBuilder {
    ghost tells = { false };

    ghost number = { λ b. b.id };

    ghost faults = { λ b. b.faults.count };

    ghost told = { λ _ _. [] };

    ghost started = { λ b. length b.paths.items };

    ghost image = { λ _. [] };

    fn id(&self) -> u32 {
        self.id
    }

    fn fault_count(&self) -> u64 {
        self.faults.count
    }

    fn start(&mut self, order: &Order) -> Result<u32, BuildStop> {
        let Ok(word) = order.id.print(self.rt.alloc()) else {
            return Err(BuildStop::Memory);
        };
        let (image, paths) = match self.open(&order.id) {
            Ok(found) => found,
            Err(error) => return Err(self.fault("image", word.as_str(), error)),
        };
        let Ok(count) = u32::try_from(paths.len()) else {
            let error = io::Error::other("too many entries");
            return Err(self.fault("image", word.as_str(), error));
        };
        self.image = image;
        self.package = word;
        self.paths = paths;
        Ok(count)
    }

    fn entry(&mut self, index: u32) -> Result<Entry, BuildStop> {
        let Ok(path) = self.paths[index as usize].try_clone() else {
            return Err(BuildStop::Memory);
        };
        match self.image.read(path.text()) {
            Ok(Some(object)) => {
                let taken = Taken {
                    package: self.package.as_str(),
                    done: Count(u64::from(index) + 1),
                    files: Count(self.paths.len() as u64),
                };
                self.progress.draw(&taken);
                Ok(Entry { path, object })
            }
            Ok(None) => {
                let error = io::Error::from(io::ErrorKind::NotFound);
                Err(self.fault("entry", path.text(), error))
            }
            Err(error) => Err(self.fault("entry", path.text(), error)),
        }
    }
}

/// How much of an image is taken.
#[derive(Clone, Copy)]
struct Taken<'a> {
    package: &'a str,
    done: Count,
    files: Count,
}

impl fmt::Display for Taken<'_> {
    fn fmt<W: fmt::Write>(&self, f: &mut fmt::Formatter<W>) -> fmt::Result {
        let Taken {
            package,
            done,
            files,
        } = self;
        write!(f, "image of {package:.40}: {done} of {files} files")
    }
}

/// A builder that has a program prepare the folder of an image. The program is started with the
/// words `category/package-version` and `slot/subslot`, and a word for each flag that is on, in byte
/// order. The builder fails where it doesn't end with status 0.
#[derive(Drop)]
pub struct CommandBuilder {
    program: String,
    folder: FolderBuilder,
}

impl CommandBuilder {
    /// A builder of this id that starts a program for each image below a folder.
    pub fn new(
        rt: HostRuntime,
        program: &str,
        images: &str,
        id: u32,
        progress: Progress,
    ) -> Result<CommandBuilder, AllocError>
        ensures { IfOk result (λ b. b.folder.id ≡ id) }
    {
        Ok(CommandBuilder {
            program: String::from_str(rt.alloc(), program)?,
            folder: FolderBuilder::new(rt, images, id, progress)?,
        })
    }
}

/// The command that has the program build what is ordered.
fn command_for(alloc: Global, program: &str, order: &Order) -> Result<Command, AllocError>
    ensures program { IfOk result (λ c. command_program c ≡ program.now) }
    ensures words { IfOk result (λ c. command_args c ≡ order_words order.now) }
{
    let package = order.id.print(alloc)?;
    let slot = order.slot.text();
    let subslot = order.subslot.text();
    let slots = format!(in alloc; "{slot}/{subslot}")?;
    let mut command = Command::new(alloc, program)?;
    command.arg(package.as_str())?;
    command.arg(slots.as_str())?;
    for flag in order.enabled.list() {
        add_word(&mut command, flag.text())?;
    }
    Ok(command)
}

/// Puts a word behind those of a command.
fn add_word(command: &mut Command, word: &str) -> Result<(), AllocError>
    ensures program { OnOk result (command_program command.new ≡ command_program command.old) }
    ensures words { OnOk result
        (command_args command.new ≡ command_args command.old ++ word.now ∷ []) }
{
    command.arg(word)?;
    Ok(())
}

/// Runs the program for an order. What it writes goes to standard error.
fn run_program(rt: &HostRuntime, program: &str, order: &Order) -> io::Result<()> {
    let mut command = command_for(rt.alloc(), program, order)?;
    command.stdin(Stdio::null()).stdout(rt.stderr());
    programs::run(rt, &mut command, "the program failed")
}

impl Builder for CommandBuilder {
    ghost tells = { false };

    ghost number = { λ b. b.folder.id };

    ghost faults = { λ b. b.folder.faults.count };

    ghost told = { λ _ _. [] };

    ghost started = { λ b. length b.folder.paths.items };

    ghost image = { λ _. [] };

    fn id(&self) -> u32 {
        self.folder.id()
    }

    fn fault_count(&self) -> u64 {
        self.folder.fault_count()
    }

    fn start(&mut self, order: &Order) -> Result<u32, BuildStop> {
        let Ok(word) = order.id.print(self.folder.rt.alloc()) else {
            return Err(BuildStop::Memory);
        };
        self.folder.progress.clear();
        match run_program(&self.folder.rt, self.program.as_str(), order) {
            Ok(()) => self.folder.start(order),
            Err(error) => Err(self.folder.fault("build", word.as_str(), error)),
        }
    }

    fn entry(&mut self, index: u32) -> Result<Entry, BuildStop> {
        self.folder.entry(index)
    }
}
