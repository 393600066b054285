//! A folder of the system as a disk. Each call opens the file that it needs, and closes it.

ghost use Rattle.std.specs.Prelude.{◌≡◌, ◌+◌, ◌≤◌, None, IfOk, IfSome, OnErr, OnOk, IsErr, IsOk, length, vec_len};
ghost use Rattle.vbm_ports.specs.Counts.{counted, Rose};
ghost use Rattle.vbm_ports.specs.Names.{IsStoreName};
ghost use Rattle.vbm_ports.specs.declared.names.TheConstants.{LONGEST_NAME};

use crate::disk::LONGEST_FILE;
use crate::names::{LONGEST_NAME, names_store_file};
use crate::retried::read_some;
use crate::{Disk, Failed, NoMemory, Text};
use std::alloc::Global;
use std::fs::{OpenFile, OpenOptions};
use std::io::{self, ErrorKind, Read, Seek, SeekFrom, Write};
use std::rt::Files;

/// How many files are listed until a sync. With more, the listed ones are settled before.
const MOST_UNSETTLED: usize = 64;

/// A store name.
#[derive(Clone, Copy)]
struct StoreName {
    bytes: [u8; LONGEST_NAME],
    len: usize,
    ghost short: { len ≤ LONGEST_NAME },
}

impl StoreName {
    fn new(name: &[u8]) -> StoreName
        requires { length name.now ≤ LONGEST_NAME }
    {
        let mut bytes = [0; LONGEST_NAME];
        bytes[..name.len()].copy_from_slice(name);
        StoreName {
            bytes,
            len: name.len(),
        }
    }

    fn as_slice(&self) -> &[u8]
        ensures { length result.now ≤ LONGEST_NAME }
    {
        &self.bytes[..self.len]
    }
}

/// The folder's path, a slash, and room for a name.
#[derive(Drop)]
struct PathRoom {
    bytes: Vec<u8>,
    folder_len: usize,
    ghost room: { folder_len + LONGEST_NAME ≤ vec_len bytes },
}

impl PathRoom {
    fn new(alloc: Global, folder: &[u8]) -> Result<PathRoom, NoMemory> {
        let mut bytes = Vec::from_slice(alloc, folder).map_err(|_| NoMemory)?;
        bytes.push(b'/').map_err(|_| NoMemory)?;
        let folder_len = bytes.len();
        let room = bytes.extend_from_slice(&[0; LONGEST_NAME]);
        room.map_err(|_| NoMemory)?;
        Ok(PathRoom { bytes, folder_len })
    }

    fn folder(&self) -> Result<&str, Failed> {
        str::from_utf8(&self.bytes.as_slice()[..self.folder_len]).map_err(|_| Failed)
    }

    fn file(&mut self, name: &[u8]) -> Result<&str, Failed>
        requires { length name.now ≤ LONGEST_NAME }
    {
        let end = self.folder_len + name.len();
        self.bytes.as_mut_slice()[self.folder_len..end].copy_from_slice(name);
        str::from_utf8(&self.bytes.as_slice()[..end]).map_err(|_| Failed)
    }
}

/// What the calls work on, but for the counts.
#[derive(Drop)]
struct Folder {
    path: PathRoom,
    // The files that were written or cut since the last sync that succeeded.
    unsettled: Vec<StoreName>,
    // Whether a name was made or removed since.
    has_new_names: bool,
    // Whether a sync has succeeded.
    is_settled: bool,
}

impl Folder {
    fn new(alloc: Global, folder: &[u8]) -> Result<Folder, NoMemory> {
        Ok(Folder {
            path: PathRoom::new(alloc, folder)?,
            unsettled: Vec::with_capacity(alloc, MOST_UNSETTLED).map_err(|_| NoMemory)?,
            has_new_names: false,
            is_settled: false,
        })
    }

    fn length<R: Files>(&mut self, rt: &R, name: &[u8]) -> Result<Option<u64>, Failed>
        requires { length name.now ≤ LONGEST_NAME }
        ensures { IfOk result (λ found. IfSome found (λ n. n ≤ LONGEST_FILE)) }
    {
        length_at(rt, self.path.file(name)?)
    }

    fn read<R: Files>(
        &mut self,
        rt: &R,
        name: &[u8],
        at: u64,
        out: &mut [u8],
    ) -> Result<usize, Failed>
        requires { length name.now ≤ LONGEST_NAME }
        ensures { IfOk result (λ n. n ≤ length out.old) }
    {
        let path = self.path.file(name)?;
        if length_at(rt, path)?.is_none_or(|len| len <= at) {
            return Ok(0);
        }
        let opened = OpenOptions::new().read(true).open(rt, path);
        let mut file = opened.map_err(|_| Failed)?;
        file.seek(SeekFrom::Start(at)).map_err(|_| Failed)?;
        fill(&mut file, out)
    }

    fn write<R: Files>(&mut self, rt: &R, name: &[u8], at: u64, bytes: &[u8]) -> Result<(), Failed>
        requires { length name.now ≤ LONGEST_NAME }
    {
        let is_new = self.length(rt, name)?.is_none();
        self.list(rt, name)?;
        self.has_new_names |= is_new;
        write_at(rt, self.path.file(name)?, at, bytes)
    }

    fn cut<R: Files>(&mut self, rt: &R, name: &[u8], len: u64) -> Result<(), Failed>
        requires { length name.now ≤ LONGEST_NAME }
    {
        if self.length(rt, name)?.is_none_or(|old| old <= len) {
            return Ok(());
        }
        self.list(rt, name)?;
        cut_at(rt, self.path.file(name)?, len)
    }

    fn remove<R: Files>(&mut self, rt: &R, name: &[u8]) -> Result<(), Failed>
        requires { length name.now ≤ LONGEST_NAME }
    {
        if self.length(rt, name)?.is_none() {
            return Ok(());
        }
        self.has_new_names = true;
        rt.remove_file(self.path.file(name)?).map_err(|_| Failed)?;
        self.unsettled.retain(|known| known.as_slice() != name);
        Ok(())
    }

    // Lists a file that the next sync is to settle. A full list is settled first.
    fn list<R: Files>(&mut self, rt: &R, name: &[u8]) -> Result<(), Failed>
        requires { length name.now ≤ LONGEST_NAME }
    {
        if self.unsettled.iter().any(|known| known.as_slice() == name) {
            return Ok(());
        }
        if self.unsettled.len() >= MOST_UNSETTLED {
            self.settle_listed(rt)?;
        }
        self.unsettled
            .push(StoreName::new(name))
            .map_err(|_| Failed)
    }

    fn settle_listed<R: Files>(&mut self, rt: &R) -> Result<(), Failed> {
        for name in self.unsettled.as_slice() {
            settle_file(rt, self.path.file(name.as_slice())?)?;
        }
        self.unsettled.clear();
        Ok(())
    }

    // The first sync also settles what earlier processes wrote and left unsettled.
    fn sync<R: Files>(&mut self, rt: &R) -> Result<(), Failed> {
        if !self.is_settled {
            self.settle_store(rt)?;
        }
        self.settle_listed(rt)?;
        if self.has_new_names || !self.is_settled {
            settle_folder(rt, self.path.folder()?)?;
        }
        self.has_new_names = false;
        self.is_settled = true;
        Ok(())
    }

    // Settles every file of the folder that has a store name.
    fn settle_store<R: Files>(&mut self, rt: &R) -> Result<(), Failed> {
        let mut names = rt.open_dir(self.path.folder()?).map_err(|_| Failed)?;
        for _ in 0..u64::MAX {
            if !self.settle_next(rt, &mut names)? {
                return Ok(());
            }
        }
        Err(Failed)
    }

    // Settles the files whose names come next, each ended by a zero byte, and says whether there were any.
    fn settle_next<R: Files>(&mut self, rt: &R, names: &mut R::Dir) -> Result<bool, Failed> {
        let mut buffer = [0u8; 4096];
        let n = read_some(names, &mut buffer)?;
        for name in buffer[..n].split(|byte| *byte == 0) {
            if names_store_file(name) {
                self.settle_named(rt, name)?;
            }
        }
        Ok(n > 0)
    }

    #[tactic(auto, using(crate::proofs::NameLemmas::store_name_short))]
    fn settle_named<R: Files>(&mut self, rt: &R, name: &[u8]) -> Result<(), Failed>
        requires { IsStoreName name.now }
    {
        let path = self.path.file(name)?;
        match unless_missing(rt.symlink_metadata(path))? {
            Some(found) if found.is_file() => settle_file(rt, path),
            _ => Ok(()),
        }
    }
}

// `None` where there is no such file.
fn unless_missing<T: Drop>(found: io::Result<T>) -> Result<Option<T>, Failed> {
    match found {
        Ok(value) => Ok(Some(value)),
        Err(error) if error.kind() == ErrorKind::NotFound => Ok(None),
        Err(_) => Err(Failed),
    }
}

// The length of a regular file. A link, a folder or a pipe of that name is a fault: to open a pipe might wait for ever.
fn length_at<R: Files>(rt: &R, path: &str) -> Result<Option<u64>, Failed>
    ensures { IfOk result (λ found. IfSome found (λ n. n ≤ LONGEST_FILE)) }
{
    match unless_missing(rt.symlink_metadata(path))? {
        None => Ok(None),
        Some(found) if found.is_file() && found.len() <= LONGEST_FILE => Ok(Some(found.len())),
        Some(_) => Err(Failed),
    }
}

// Reads until the buffer is full or the file ends.
fn fill<F: Read>(file: &mut F, out: &mut [u8]) -> Result<usize, Failed>
    ensures { IfOk result (λ n. n ≤ length out.old) }
{
    let mut filled = 0;
    while filled < out.len() {
        let n = read_some(file, &mut out[filled..])?;
        if n == 0 {
            break;
        }
        filled += n;
    }
    Ok(filled)
}

fn write_at<R: Files>(rt: &R, path: &str, at: u64, bytes: &[u8]) -> Result<(), Failed> {
    let opened = OpenOptions::new().write(true).create(true).open(rt, path);
    let mut file = opened.map_err(|_| Failed)?;
    file.seek(SeekFrom::Start(at)).map_err(|_| Failed)?;
    file.write_all(bytes).map_err(|_| Failed)
}

fn cut_at<R: Files>(rt: &R, path: &str, len: u64) -> Result<(), Failed> {
    let opened = OpenOptions::new().write(true).open(rt, path);
    opened
        .and_then(|file| file.set_len(len))
        .map_err(|_| Failed)
}

// Settles the bytes and the length of a file, if it is there.
fn settle_file<R: Files>(rt: &R, path: &str) -> Result<(), Failed> {
    match unless_missing(OpenOptions::new().read(true).open(rt, path))? {
        Some(file) => file.sync_data().map_err(|_| Failed),
        None => Ok(()),
    }
}

// Settles the names in a folder.
fn settle_folder<R: Files>(rt: &R, path: &str) -> Result<(), Failed> {
    let opened = OpenOptions::new().read(true).open(rt, path);
    opened
        .and_then(|folder| folder.sync_all())
        .map_err(|_| Failed)
}

/// The files of a folder. It tells nothing of what they hold.
#[derive(Drop)]
pub struct FolderDisk<'a, R: Files> {
    rt: &'a R,
    folder: Folder,
    calls: u64,
    faults: u64,
}

impl<'a, R: Files> FolderDisk<'a, R> {
    /// The disk of a folder, given by its path in UTF-8. All memory that its calls need is taken here.
    pub fn new(rt: &'a R, alloc: Global, folder: Text) -> Result<FolderDisk<'a, R>, NoMemory>
        ensures calls { IfOk result (λ disk. (⟦<FolderDisk<'a, R> as Disk>⟧.state disk).calls ≡ 0) }
        ensures faults { IfOk result (λ disk. (⟦<FolderDisk<'a, R> as Disk>⟧.state disk).faults ≡ 0) }
    {
        Ok(FolderDisk {
            rt,
            folder: Folder::new(alloc, folder.bytes())?,
            calls: 0,
            faults: 0,
        })
    }

    // Counts a call, and a fault where it failed.
    fn counted<T: Drop>(&mut self, outcome: Result<T, Failed>) -> Result<T, Failed>
        ensures calls { self.new.calls ≡ counted self.old.calls }
        ensures more { (self.old.calls ≤ self.new.calls) × (self.old.faults ≤ self.new.faults) }
        ensures cause { IsErr result → Rose self.old.faults self.new.faults }
        ensures no_fault { IsOk result → self.new.faults ≡ self.old.faults }
        ensures same { result ≡ outcome }
    {
        self.calls = self.calls.saturating_add(1);
        if outcome.is_err() {
            self.faults = self.faults.saturating_add(1);
        }
        outcome
    }
}

#[tactic(auto, using(crate::proofs::NameLemmas::store_name_short))]
impl<R: Files> Disk for FolderDisk<'_, R> {
    ghost tells = { ⊥ };

    ghost state = { λ disk. record {
      files = λ name. None;
      may_leave = λ image. ⊥;
      moment = 0;
      left_since = λ t image. ⊥;
      calls = disk.calls;
      faults = disk.faults;
    } };

    fn length(&mut self, name: &[u8]) -> Result<Option<u64>, Failed> {
        let outcome = self.folder.length(self.rt, name);
        self.counted(outcome)
    }

    fn read(&mut self, name: &[u8], at: u64, out: &mut [u8]) -> Result<usize, Failed> {
        let outcome = self.folder.read(self.rt, name, at, out);
        self.counted(outcome)
    }

    fn write(&mut self, name: &[u8], at: u64, bytes: &[u8]) -> Result<(), Failed> {
        let outcome = self.folder.write(self.rt, name, at, bytes);
        self.counted(outcome)
    }

    fn cut(&mut self, name: &[u8], len: u64) -> Result<(), Failed> {
        let outcome = self.folder.cut(self.rt, name, len);
        self.counted(outcome)
    }

    fn remove(&mut self, name: &[u8]) -> Result<(), Failed> {
        let outcome = self.folder.remove(self.rt, name);
        self.counted(outcome)
    }

    fn sync(&mut self) -> Result<(), Failed> {
        let outcome = self.folder.sync(self.rt);
        self.counted(outcome)
    }

    ghost coherent = { λ disk. record {
      read_is_image = λ told. absurd told;
      counts_now = λ t image le now. absurd now;
      only_now = λ image left. absurd left;
      short = λ told. absurd told;
    } };
}
