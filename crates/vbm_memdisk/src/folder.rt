//! Files by their names.

ghost use Rattle.std.specs.Prelude.{◌≡◌, ℕ, ◌+◌, ◌-◌, ◌^◌, ◌<◌, ◌≤◌, List, [], ◌∷◌, ◌++◌, length, map, take, drop, replicate, min, Option, Some, None, IfOk, OnOk, OnErr, IfSome, MatchOption, option_copied};
ghost use Rattle.std.specs.Option.{option_map};
ghost use Rattle.vbm_ports.specs.Files.{bytes_of, put, cut_to};
ghost use Rattle.vbm_memdisk.specs.Folders.{files_of, files_in, with_file, wrote, filled, smeared, or_else, file_name, IsFirst};
ghost use Rattle.vbm_ports.specs.declared.disk.TheConstants.{LONGEST_FILE};

use std::alloc::Global;
use vbm_ports::{Names, NoMemory, Text};

/// A file in memory.
#[derive(Drop)]
pub(crate) struct MemFile {
    name: Text,
    bytes: Vec<u8>,
}

/// Files of which the first of a name counts.
#[derive(Drop)]
pub(crate) struct Folder {
    alloc: Global,
    files: Vec<MemFile>,
}

impl Folder {
    /// No files.
    pub(crate) fn new(alloc: Global) -> Folder
        ensures { files_in result ≡ (λ name. None) }
    {
        Folder {
            alloc,
            files: Vec::new(alloc),
        }
    }

    /// Lends a file's bytes, if it is there.
    pub(crate) fn get(&self, name: &[u8]) -> Option<&[u8]>
        ensures { option_copied result ≡ files_in self.now name.now }
    {
        match find(&self.files, name) {
            Some(i) => Some(self.files[i].bytes.as_slice()),
            None => None,
        }
    }

    /// Removes a file, if it is there.
    pub(crate) fn remove(&mut self, name: &[u8])
        ensures { files_in self.new ≡ with_file name.now None (files_in self.old) }
    {
        self.files.retain(|file| file.name.bytes() != name);
    }

    // Makes or replaces a file.
    fn set(&mut self, name: &[u8], bytes: Vec<u8>) -> Result<(), NoMemory>
        ensures ok { OnOk result (files_in self.new ≡ with_file name.now (Some bytes.items) (files_in self.old)) }
        ensures err { OnErr result (files_in self.new ≡ files_in self.old) }
    {
        if let Some(i) = find(&self.files, name) {
            let file = &mut self.files[i];
            file.bytes = bytes;
            return Ok(());
        }
        let name = Text::new(self.alloc, name)?;
        self.push(MemFile { name, bytes })
    }

    /// The length of a file in bytes, 0 where there is none.
    pub(crate) fn length(&self, name: &[u8]) -> usize
        ensures { result ≡ length (bytes_of (files_in self.now name.now)) }
    {
        match self.get(name) {
            Some(bytes) => bytes.len(),
            None => 0,
        }
    }

    fn push(&mut self, file: MemFile) -> Result<(), NoMemory>
        ensures ok { OnOk result (self.new.files.items ≡ self.old.files.items ++ file ∷ []) }
        ensures err { OnErr result (self.new.files.items ≡ self.old.files.items) }
    {
        match self.files.push(file) {
            Ok(()) => Ok(()),
            Err(_) => Err(NoMemory),
        }
    }

    /// Puts bytes at a place of a file, which is made if it is absent and there are any.
    pub(crate) fn write(&mut self, name: &[u8], at: u64, bytes: &[u8]) -> Result<(), NoMemory>
        requires { at + length bytes.now ≤ LONGEST_FILE }
        ensures ok { OnOk result (files_in self.new ≡ with_file name.now (wrote at bytes.now (files_in self.old name.now)) (files_in self.old)) }
        ensures err { OnErr result (files_in self.new ≡ files_in self.old) }
    {
        if bytes.is_empty() {
            return Ok(());
        }
        if let Some(i) = find(&self.files, name) {
            let file = &mut self.files[i];
            return put_bytes(&mut file.bytes, at as usize, bytes);
        }
        let mut made = Vec::new(self.alloc);
        put_bytes(&mut made, at as usize, bytes)?;
        self.set(name, made)
    }

    /// Puts bytes at a place, and then fills n bytes from there and a gap before them with one byte, as far as the file
    /// reaches.
    pub(crate) fn smear(
        &mut self,
        name: &[u8],
        at: u64,
        n: u64,
        byte: u8,
        bytes: &[u8],
    ) -> Result<(), NoMemory>
        requires fits { at + n ≤ LONGEST_FILE }
        requires part { length bytes.now ≤ n }
        ensures ok { OnOk result (files_in self.new ≡ with_file name.now (smeared byte at n bytes.now (files_in self.old name.now)) (files_in self.old)) }
        ensures err { OnErr result (files_in self.new ≡ files_in self.old) }
    {
        let from = at.min(self.length(name) as u64);
        self.write(name, at, bytes)?;
        self.fill(name, from, at + n, byte);
        Ok(())
    }

    /// Fills a file with one byte, from a place up to another, as far as it reaches.
    pub(crate) fn fill(&mut self, name: &[u8], from: u64, to: u64, byte: u8)
        requires { IfSome (files_in self.old name.now) (λ bytes. (from ≤ length bytes) × (from ≤ to)) }
        ensures { files_in self.new ≡ with_file name.now (option_map (filled from to byte) (files_in self.old name.now)) (files_in self.old) }
    {
        if let Some(i) = find(&self.files, name) {
            let file = &mut self.files[i];
            fill_bytes(&mut file.bytes, from as usize, to, byte);
        }
    }

    /// Makes or replaces a file by a copy of these bytes.
    pub(crate) fn set_copy(&mut self, name: &[u8], bytes: &[u8]) -> Result<(), NoMemory>
        ensures ok { OnOk result (files_in self.new ≡ with_file name.now (Some bytes.now) (files_in self.old)) }
        ensures err { OnErr result (files_in self.new ≡ files_in self.old) }
    {
        match Vec::from_slice(self.alloc, bytes) {
            Ok(bytes) => self.set(name, bytes),
            Err(_) => Err(NoMemory),
        }
    }

    /// The names of the files.
    pub(crate) fn names(&self) -> Result<Names, NoMemory>
        ensures { IfOk result (λ names. names ≡ map file_name self.now.files.items) }
    {
        let mut names = Names::new(self.alloc);
        for file in &self.files {
            names.push(Text::new(self.alloc, file.name.bytes())?)?;
        }
        Ok(names)
    }

    /// A copy of all files.
    pub(crate) fn copy(&self) -> Result<Folder, NoMemory>
        ensures { IfOk result (λ copy. files_in copy ≡ files_in self.now) }
    {
        let mut copy = Folder::new(self.alloc);
        for file in &self.files {
            copy.append(file)?;
        }
        Ok(copy)
    }

    // Adds a copy of a file, which counts where no other of its name stands before it.
    fn append(&mut self, file: &MemFile) -> Result<(), NoMemory>
        ensures { OnOk result ((name : List ℕ)
            → files_in self.new name ≡ or_else (files_in self.old name) (files_of (file.now ∷ []) name)) }
    {
        let name = Text::new(self.alloc, file.name.bytes())?;
        let bytes = Vec::from_slice(self.alloc, file.bytes.as_slice()).map_err(|_| NoMemory)?;
        self.push(MemFile { name, bytes })
    }

    /// Cuts a longer file to a length.
    pub(crate) fn cut(&mut self, name: &[u8], len: u64)
        ensures { files_in self.new ≡ with_file name.now (cut_to len (files_in self.old name.now)) (files_in self.old) }
    {
        if let Some(i) = find(&self.files, name) {
            let file = &mut self.files[i];
            file.bytes.truncate(len as usize);
        }
    }
}

// Puts bytes at a place, with zeros in a gap before them.
fn put_bytes(file: &mut Vec<u8>, at: usize, bytes: &[u8]) -> Result<(), NoMemory>
    requires { at + length bytes.now ≤ LONGEST_FILE }
    ensures ok { OnOk result (file.new.items ≡ put at bytes.now file.old.items) }
    ensures err { OnErr result (file.new.items ≡ file.old.items) }
{
    pad(file, at + bytes.len())?;
    copy_into(file.as_mut_slice(), at, bytes);
    Ok(())
}

// Makes a shorter file this long, by zeros at its end.
fn pad(file: &mut Vec<u8>, len: usize) -> Result<(), NoMemory>
    ensures ok { OnOk result (file.new.items ≡ file.old.items ++ replicate (len - length file.old.items) 0) }
    ensures err { OnErr result (file.new.items ≡ file.old.items) }
{
    if len <= file.len() {
        return Ok(());
    }
    match file.resize(len, 0) {
        Ok(()) => Ok(()),
        Err(_) => Err(NoMemory),
    }
}

fn copy_into(file: &mut [u8], at: usize, bytes: &[u8])
    requires { at + length bytes.now ≤ length file.old }
    ensures { file.new ≡ take at file.old ++ bytes.now ++ drop (at + length bytes.now) file.old }
{
    file[at..at + bytes.len()].copy_from_slice(bytes);
}

// Fills with one byte from a place up to another, as far as there are bytes.
fn fill_bytes(file: &mut Vec<u8>, from: usize, to: u64, byte: u8)
    requires within { from ≤ length file.old.items }
    requires order { from ≤ to }
    ensures { file.new.items ≡ filled from to byte file.old.items }
{
    let end = (to as usize).min(file.len());
    file.as_mut_slice()[from..end].fill(byte);
}

// The place of the first file of a name.
fn find(files: &[MemFile], name: &[u8]) -> Option<usize>
    ensures { MatchOption result (files_of files.now name.now ≡ None) (λ i. IsFirst files.now name.now i) }
{
    for (i, file) in files.iter().enumerate() {
        if file.name.bytes() == name {
            return Some(i);
        }
    }
    None
}
