//! Does calls of a disk on the current folder, one for each word, for scripts that watch the folder and the system:
//! `vbm_folder write,a.vdi,0,abc sync length,a.vdi`. It prints a line for each call, and is no part of `vbm`.
#![tactic(auto)]

ghost use Rattle.vbm_ports.specs.Names.{IsStoreName};

use std::{env, io};
use vbm_ports::{Disk, FolderDisk, Text, names_store_file};

fn main(rt: HostRuntime) -> io::Result<()> {
    let alloc = rt.alloc();
    let Ok(folder) = Text::new(alloc, b".") else {
        return rt.println("no memory");
    };
    let Ok(mut disk) = FolderDisk::new(&rt, alloc, folder) else {
        return rt.println("no memory");
    };
    for word in env::args(&rt)?.skip(1) {
        let parts: Vec<&str> = word.as_str().split(',').collect(alloc)?;
        call(&rt, &mut disk, parts.as_slice())?;
    }
    Ok(())
}

// Does the call of one word.
fn call<D: Disk>(rt: &impl Print, disk: &mut D, parts: &[&str]) -> io::Result<()> {
    match parts {
        ["sync"] => report(rt, disk.sync().is_ok()),
        ["length", name] if names_store_file(name.as_bytes()) => length(rt, disk, name.as_bytes()),
        ["read", name, at] if names_store_file(name.as_bytes()) => {
            read(rt, disk, name.as_bytes(), number(at))
        }
        ["write", name, at, text] if names_store_file(name.as_bytes()) => {
            write(rt, disk, name.as_bytes(), number(at), text.as_bytes())
        }
        ["cut", name, len] if names_store_file(name.as_bytes()) => {
            report(rt, disk.cut(name.as_bytes(), number(len)).is_ok())
        }
        ["remove", name] if names_store_file(name.as_bytes()) => {
            report(rt, disk.remove(name.as_bytes()).is_ok())
        }
        _ => rt.println("no call"),
    }
}

fn number(text: &str) -> u64 {
    text.parse().unwrap_or(0)
}

fn report(rt: &impl Print, is_ok: bool) -> io::Result<()> {
    rt.println(if is_ok { "ok" } else { "failed" })
}

fn length<D: Disk>(rt: &impl Print, disk: &mut D, name: &[u8]) -> io::Result<()>
    requires { IsStoreName name.now }
{
    match disk.length(name) {
        Ok(Some(len)) => rt.println(len),
        Ok(None) => rt.println("absent"),
        Err(_) => rt.println("failed"),
    }
}

// Prints as text what stands at a place, at most 16 bytes: a zero byte as `_`, and no byte as a dot.
fn read<D: Disk>(rt: &impl Print, disk: &mut D, name: &[u8], at: u64) -> io::Result<()>
    requires { IsStoreName name.now }
{
    let mut bytes = [b'.'; 16];
    if disk.read(name, at, &mut bytes).is_err() {
        return rt.println("failed");
    }
    for byte in bytes.iter_mut() {
        if *byte == 0 {
            *byte = b'_';
        }
    }
    rt.println(str::from_utf8(&bytes).unwrap_or("no text"))
}

fn write<D: Disk>(
    rt: &impl Print,
    disk: &mut D,
    name: &[u8],
    at: u64,
    bytes: &[u8],
) -> io::Result<()>
    requires { IsStoreName name.now }
{
    if bytes.is_empty() || at > 1 << 59 || bytes.len() > 1 << 59 {
        return rt.println("no call");
    }
    report(rt, disk.write(name, at, bytes).is_ok())
}
