//! The files of a runtime: which of them are read, and one that is replaced when all of its new text is there.
ghost use Rattle.std.specs.Prelude.{⊤};
ghost use Rattle.std.specs.Io.{WritesAtMost};

use crate::opening::{Make, Open};
use std::alloc::Global;
use std::cell::Cell;
use std::fs::{Metadata, OpenFile, OpenOptions, Permissions};
use std::io::{ErrorKind, Write};
use std::os::unix::fs::{MetadataExt, OpenOptionsExt, PermissionsExt};
use std::rt::Files;
use std::{fs, io, mem};

/// Which file of a system it is, whatever its name: its device, and its node there.
#[derive(Clone, Copy, Debug, PartialEq, Eq, Drop)]
struct Node {
    device: u64,
    node: u64,
}

impl Node {
    fn of(found: &Metadata) -> Node {
        Node {
            device: found.dev(),
            node: found.ino(),
        }
    }
}

/// The name by which the system has the file behind standard input.
const INPUT: &str = "/proc/self/fd/0";

/// The names by which the system has the files behind standard input, output and error.
const STANDARD: [&str; 3] = [INPUT, "/proc/self/fd/1", "/proc/self/fd/2"];

/// Whether a folder stands behind standard input, of which nothing can be read.
pub fn has_folder_input<R: Files>(rt: &R) -> bool {
    match rt.metadata(INPUT) {
        Ok(found) => found.is_dir(),
        Err(_) => false,
    }
}

/// Whether it is the file behind standard input, output or error. No if the system doesn't say.
pub fn is_standard<R: Files>(rt: &R, found: &Metadata) -> bool {
    STANDARD.iter().any(|name| match rt.metadata(*name) {
        Ok(other) => Node::of(&other) == Node::of(found),
        Err(_) => false,
    })
}

/// Facts about the files of a run beside their bytes.
#[derive(Drop)]
pub struct Desk {
    /// The number of the process, which stands in the names of the files that it makes beside others.
    process: u32,
    /// Why the last file that couldn't be opened, made or written couldn't.
    refused: Cell<Option<ErrorKind>>,
}

impl Desk {
    /// Nothing was refused to the process of this number.
    pub fn of(process: u32) -> Desk {
        Desk {
            process,
            refused: Cell::new(None),
        }
    }

    /// Why the last file that couldn't be opened, made or written couldn't; none if the system refused nothing.
    pub fn refused(&self) -> Option<ErrorKind> {
        self.refused.get()
    }
}

/// The files that a runtime has, by their paths.
#[derive(Drop)]
pub struct Disk<'a, R> {
    rt: &'a R,
    alloc: Global,
    desk: &'a Desk,
    /// The files that were opened to be read.
    read: Vec<Node>,
}

impl<'a, R> Disk<'a, R> {
    /// The files of a runtime, none opened yet. The desk keeps why the last of them was refused.
    pub fn of(rt: &'a R, alloc: Global, desk: &'a Desk) -> Disk<'a, R> {
        Disk {
            rt,
            alloc,
            desk,
            read: Vec::new(alloc),
        }
    }

    /// Whether it is one of the files that were opened to be read.
    fn is_read(&self, found: &Metadata) -> bool {
        // Not by its name, of which a file may have several.
        let node = Node::of(found);
        self.read.iter().any(|read| *read == node)
    }
}

impl<'a, R: Files> Disk<'a, R> {
    /// The file of this name, to be read. One that can't be kept in mind isn't opened, or it might be taken for one
    /// that may be written.
    fn opened(&mut self, name: &str) -> io::Result<R::File> {
        let file = fs::open(self.rt, name)?;
        let found = file.metadata()?;
        self.read.push(Node::of(&found))?;
        Ok(file)
    }
}

impl<'a, R: Files> Open for Disk<'a, R> {
    type File = R::File;

    ghost opens = { λ _ _ _ _. ⊤ };

    fn open(&mut self, name: &str) -> Option<R::File> {
        match self.opened(name) {
            Ok(file) => Some(file),
            Err(error) => {
                self.desk.refused.set(Some(error.kind()));
                None
            }
        }
    }
}

/// How the next text gets into a file.
#[derive(Drop)]
enum Way {
    /// By a file beside it, which then takes its place: that of this name, without links.
    Beside(String),
    /// In place, once it is emptied.
    Emptied,
    /// In place, behind what stands there.
    Further,
}

/// A file whose text is replaced. A regular file keeps its text until the first write: what that one is to write goes
/// into a new file beside it, which is synced and then takes its place at once. A file that has several names, or whose
/// place no file can take, is emptied and written in place; what is no regular file is written in place.
#[derive(Drop)]
pub struct Renewed<'a, R: Files> {
    rt: &'a R,
    alloc: Global,
    desk: &'a Desk,
    file: R::File,
    way: Way,
}

/// Who may read, write and run a file, of all bits of a mode.
const MAY: u32 = 0o777;

/// How many names of a file beside another are tried. Each that is taken is that of a run that was ended in the middle,
/// or that of another system's which has the same files.
const NAMES: u32 = 100;

/// A new file, and its name.
#[derive(Drop)]
struct Part<F> {
    file: F,
    name: String,
}

/// Whether two files have one owner and one group.
fn are_alike(one: &Metadata, other: &Metadata) -> bool {
    one.uid() == other.uid() && one.gid() == other.gid()
}

impl<'a, R: Files> Renewed<'a, R> {
    /// Gives a file of this name the owner, the group and the permissions of this one.
    fn grant(&self, part: &R::File, name: &str, found: &Metadata) -> io::Result<()> {
        let made = part.metadata()?;
        if !are_alike(&made, found) {
            self.rt.lchown(name, Some(found.uid()), Some(found.gid()))?;
        }
        if made.mode() & MAY != found.mode() & MAY {
            part.set_permissions(Permissions::from_mode(found.mode() & MAY))?;
        }
        let made = part.metadata()?;
        if are_alike(&made, found) {
            Ok(())
        } else {
            Err(io::Error::from(ErrorKind::PermissionDenied))
        }
    }

    /// A new file of this name, of the same owner and group, for those who may read and write this one.
    fn made(&self, name: &str) -> io::Result<R::File> {
        let found = self.file.metadata()?;
        let mut options = OpenOptions::new();
        options.mode(found.mode() & MAY);
        // Only a new one: another run may be writing a file of this name, or have left it.
        options.write(true).create_new(true);
        let part = options.open(self.rt, name)?;
        // The process may have a mask that takes bits of the mode away.
        match self.grant(&part, name, &found) {
            Ok(()) => Ok(part),
            Err(error) => {
                let _ = self.rt.remove_file(name);
                Err(error)
            }
        }
    }

    /// A new file beside this one, whose name says what it is.
    fn part_of(&self, file: &str) -> io::Result<Part<R::File>> {
        for number in 1..=NAMES {
            let name = format!(in self.alloc; "{file}.{}.{number}.part", self.desk.process)?;
            match self.made(name.as_str()) {
                Ok(file) => return Ok(Part { file, name }),
                Err(error) if error.kind() == ErrorKind::AlreadyExists => {}
                Err(error) => return Err(error),
            }
        }
        Err(io::Error::from(ErrorKind::AlreadyExists))
    }

    /// Writes a text into a new file beside this one, which takes its place; in place if there can be no such file,
    /// or it can't take the place.
    fn write_beside(&mut self, file: &str, text: &[u8]) -> io::Result<usize>
        ensures { WritesAtMost result text.now }
    {
        let Ok(part) = self.part_of(file) else {
            return self.write_emptied(text);
        };
        let Part {
            file: mut made,
            name,
        } = part;
        // Up to the rename the old text stands, so a write that fails here costs nothing.
        if let Err(error) = write_synced(&mut made, text) {
            let _ = self.rt.remove_file(name.as_str());
            return Err(error);
        }
        if self.rt.rename(name.as_str(), file).is_err() {
            let _ = self.rt.remove_file(name.as_str());
            return self.write_emptied(text);
        }
        self.file = made;
        Ok(text.len())
    }

    /// Empties the file and writes a text into it.
    fn write_emptied(&mut self, text: &[u8]) -> io::Result<usize>
        ensures { WritesAtMost result text.now }
    {
        self.file.set_len(0)?;
        self.file.write(text)
    }

    /// Writes a text as it is due.
    fn put(&mut self, text: &[u8]) -> io::Result<usize>
        ensures { WritesAtMost result text.now }
    {
        // Only the first write replaces the old text; each further one goes behind it.
        let way = mem::replace(&mut self.way, Way::Further);
        match way {
            Way::Beside(file) => self.write_beside(file.as_str(), text),
            Way::Emptied => self.write_emptied(text),
            Way::Further => self.file.write(text),
        }
    }
}

/// Writes a whole text, and has the system keep it.
fn write_synced<F: Write + OpenFile>(file: &mut F, text: &[u8]) -> io::Result<()> {
    file.write_all(text)?;
    // Before the rename: a machine that stops between them could keep the new name without the text.
    file.sync_all()
}

impl<'a, R: Files> io::Write for Renewed<'a, R> {
    fn write(&mut self, buf: &[u8]) -> io::Result<usize> {
        let written = self.put(buf);
        if let Err(error) = &written {
            self.desk.refused.set(Some(error.kind()));
        }
        written
    }

    fn flush(&mut self) -> io::Result<()> {
        self.file.flush()
    }
}

impl<'a, R: Files> Disk<'a, R> {
    /// How the text of a file of this name gets into it.
    fn way_of(&self, name: &str, found: &Metadata) -> Way {
        if !found.is_file() {
            return Way::Further;
        }
        // A new file would take one name of several, and leave the others with the old text.
        if found.nlink() > 1 {
            return Way::Emptied;
        }
        let Ok(path) = self.rt.canonicalize(self.alloc, name) else {
            return Way::Emptied;
        };
        match String::from_str(self.alloc, path.as_str()) {
            Ok(file) => Way::Beside(file),
            Err(_) => Way::Emptied,
        }
    }

    /// The file of this name, to have its text replaced; none if it is read, or stands behind a standard stream.
    fn made(&self, name: &str) -> io::Result<Option<Renewed<'a, R>>> {
        let file = OpenOptions::new()
            .write(true)
            .create(true)
            .open(self.rt, name)?;
        let found = file.metadata()?;
        // Written by its name, the file of a standard stream would lose one of two texts.
        if found.is_file() && (self.is_read(&found) || is_standard(self.rt, &found)) {
            return Ok(None);
        }
        let way = self.way_of(name, &found);
        Ok(Some(Renewed {
            rt: self.rt,
            alloc: self.alloc,
            desk: self.desk,
            file,
            way,
        }))
    }
}

impl<'a, R: Files> Make for Disk<'a, R> {
    type Made = Renewed<'a, R>;

    ghost makes = { λ _ _ _ _. ⊤ };

    fn make(&mut self, name: &str) -> Option<Renewed<'a, R>> {
        match self.made(name) {
            Ok(made) => made,
            Err(error) => {
                self.desk.refused.set(Some(error.kind()));
                None
            }
        }
    }
}
