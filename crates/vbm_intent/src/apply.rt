//! Changes made one after the other.

ghost use Rattle.std.specs.Prelude.{◌≡◌, ℕ, ◌+◌, ◌^◌, ◌<◌, ◌≤◌, List, length, Some, OnOk, OnErr, All};
ghost use Rattle.vbm_ports.specs.Files.{Files, bytes_of, put, Sets};
ghost use Rattle.vbm_ports.specs.Names.{IsStoreName};
ghost use Rattle.vbm_ports.specs.Counts.{Rose};
ghost use Rattle.vbm_ports.specs.Crash.{Through, Follows, Only};
ghost use Rattle.vbm_ports.specs.Disk.{Passes};
ghost use Rattle.vbm_intent.specs.Changes.{name_of, start_of, size_of, effect, changed, IsAllowed, Fits};
ghost use Rattle.vbm_intent.specs.Record.{IsPlan};
ghost use Rattle.vbm_intent.specs.Pieces.{change_in};
ghost use Rattle.vbm_intent.specs.Partly.{IsFilled, MayTear, PassesTorn, IsPartly, ChangeLeaves};
ghost use Rattle.vbm_ports.specs.declared.disk.TheConstants.{LONGEST_FILE};

use crate::record::{Changes, Piece};
use vbm_ports::{Disk, Failed};

/// How many bytes one call fills.
const PIECE: usize = 65536;

/// Fills a range with a byte. Zeros past the end of the file are made by the last of them alone.
fn fill<D: Disk>(disk: &mut D, name: &[u8], at: u64, len: u64, byte: u8) -> Result<(), Failed>
    requires store { IsStoreName name.now }
    requires some { 0 < len }
    requires room { at + len ≤ LONGEST_FILE }
    requires fits { D.tells → at ≤ length (bytes_of ((D.state disk.old).files name.now)) }
    ensures ok { D.tells → OnOk result (IsFilled name.now at len byte (D.state disk.old) (D.state disk.new)) }
    ensures images { D.tells → MayTear name.now at len (D.state disk.old) (D.state disk.new) }
    ensures time { D.tells → PassesTorn name.now at len (D.state disk.old) (D.state disk.new) }
    ensures faults { (D.state disk.old).faults ≤ (D.state disk.new).faults }
    ensures cause { OnErr result (Rose (D.state disk.old).faults (D.state disk.new).faults) }
    ensures no_fault { OnOk result ((D.state disk.new).faults ≡ (D.state disk.old).faults) }
{
    if byte == 0 {
        return fill_zeros(disk, name, at, len);
    }
    fill_pieces(disk, name, at, len, byte)
}

/// Fills a range with zeros.
fn fill_zeros<D: Disk>(disk: &mut D, name: &[u8], at: u64, len: u64) -> Result<(), Failed>
    requires store { IsStoreName name.now }
    requires some { 0 < len }
    requires room { at + len ≤ LONGEST_FILE }
    requires fits { D.tells → at ≤ length (bytes_of ((D.state disk.old).files name.now)) }
    ensures ok { D.tells → OnOk result (IsFilled name.now at len 0 (D.state disk.old) (D.state disk.new)) }
    ensures images { D.tells → MayTear name.now at len (D.state disk.old) (D.state disk.new) }
    ensures time { D.tells → PassesTorn name.now at len (D.state disk.old) (D.state disk.new) }
    ensures faults { (D.state disk.old).faults ≤ (D.state disk.new).faults }
    ensures cause { OnErr result (Rose (D.state disk.old).faults (D.state disk.new).faults) }
    ensures no_fault { OnOk result ((D.state disk.new).faults ≡ (D.state disk.old).faults) }
{
    let end = disk.length(name)?.unwrap_or(0);
    fill_to_end(disk, name, at, len, end)
}

/// Fills a range with zeros, in a file that ends at `end`.
fn fill_to_end<D: Disk>(
    disk: &mut D,
    name: &[u8],
    at: u64,
    len: u64,
    end: u64,
) -> Result<(), Failed>
    requires store { IsStoreName name.now }
    requires some { 0 < len }
    requires room { at + len ≤ LONGEST_FILE }
    requires fits { D.tells → at ≤ length (bytes_of ((D.state disk.old).files name.now)) }
    requires end { D.tells → end ≡ length (bytes_of ((D.state disk.old).files name.now)) }
    ensures ok { D.tells → OnOk result (IsFilled name.now at len 0 (D.state disk.old) (D.state disk.new)) }
    ensures images { D.tells → MayTear name.now at len (D.state disk.old) (D.state disk.new) }
    ensures time { D.tells → PassesTorn name.now at len (D.state disk.old) (D.state disk.new) }
    ensures faults { (D.state disk.old).faults ≤ (D.state disk.new).faults }
    ensures cause { OnErr result (Rose (D.state disk.old).faults (D.state disk.new).faults) }
    ensures no_fault { OnOk result ((D.state disk.new).faults ≡ (D.state disk.old).faults) }
{
    if at + len <= end {
        return fill_pieces(disk, name, at, len, 0);
    }
    if end <= at {
        return write_last_zero(disk, name, at, len);
    }
    fill_pieces(disk, name, at, end - at, 0)?;
    write_last_zero(disk, name, end, at + len - end)
}

/// Writes the last of n zeros behind the end of a file, which makes the others.
fn write_last_zero<D: Disk>(disk: &mut D, name: &[u8], end: u64, n: u64) -> Result<(), Failed>
    requires store { IsStoreName name.now }
    requires some { 0 < n }
    requires room { end + n ≤ LONGEST_FILE }
    requires end { D.tells → length (bytes_of ((D.state disk.old).files name.now)) ≡ end }
    ensures ok { D.tells → OnOk result (IsFilled name.now end n 0 (D.state disk.old) (D.state disk.new)) }
    ensures images { D.tells → MayTear name.now end n (D.state disk.old) (D.state disk.new) }
    ensures time { Passes (D.state disk.old) (D.state disk.new) (D.state disk.new).may_leave }
    ensures faults { (D.state disk.old).faults ≤ (D.state disk.new).faults }
    ensures cause { OnErr result (Rose (D.state disk.old).faults (D.state disk.new).faults) }
    ensures no_fault { OnOk result ((D.state disk.new).faults ≡ (D.state disk.old).faults) }
{
    disk.write(name, end + n - 1, &[0])
}

/// Fills a range with a byte, piece by piece.
fn fill_pieces<D: Disk>(
    disk: &mut D,
    name: &[u8],
    at: u64,
    len: u64,
    byte: u8,
) -> Result<(), Failed>
    requires store { IsStoreName name.now }
    requires some { 0 < len }
    requires room { at + len ≤ LONGEST_FILE }
    requires fits { D.tells → at ≤ length (bytes_of ((D.state disk.old).files name.now)) }
    ensures ok { D.tells → OnOk result (IsFilled name.now at len byte (D.state disk.old) (D.state disk.new)) }
    ensures images { D.tells → MayTear name.now at len (D.state disk.old) (D.state disk.new) }
    ensures time { D.tells → PassesTorn name.now at len (D.state disk.old) (D.state disk.new) }
    ensures faults { (D.state disk.old).faults ≤ (D.state disk.new).faults }
    ensures cause { OnErr result (Rose (D.state disk.old).faults (D.state disk.new).faults) }
    ensures no_fault { OnOk result ((D.state disk.new).faults ≡ (D.state disk.old).faults) }
{
    let mut done = 0u64;
    while done < len {
        let n = (len - done).min(PIECE as u64) as usize;
        write_copies(disk, name, at + done, byte, n)?;
        done += n as u64;
    }
    Ok(())
}

/// Writes a byte n times, at most [`PIECE`].
fn write_copies<D: Disk>(
    disk: &mut D,
    name: &[u8],
    at: u64,
    byte: u8,
    n: usize,
) -> Result<(), Failed>
    requires store { IsStoreName name.now }
    requires some { 0 < n }
    requires short { n ≤ PIECE }
    requires room { at + n ≤ LONGEST_FILE }
    ensures ok { D.tells → OnOk result (IsFilled name.now at n byte (D.state disk.old) (D.state disk.new)) }
    ensures images { D.tells → MayTear name.now at n (D.state disk.old) (D.state disk.new) }
    ensures time { Passes (D.state disk.old) (D.state disk.new) (D.state disk.new).may_leave }
    ensures faults { (D.state disk.old).faults ≤ (D.state disk.new).faults }
    ensures cause { OnErr result (Rose (D.state disk.old).faults (D.state disk.new).faults) }
    ensures no_fault { OnOk result ((D.state disk.new).faults ≡ (D.state disk.old).faults) }
{
    let piece = [byte; PIECE];
    disk.write(name, at, &piece[..n])
}

/// Makes one change.
fn apply_one<D: Disk>(disk: &mut D, piece: &Piece) -> Result<(), Failed>
    requires allowed { IsAllowed (change_in piece.now) }
    requires room { size_of (change_in piece.now) ≤ 2 ^ 32 }
    requires fits { D.tells
        → start_of (change_in piece.now) ≤ length (bytes_of ((D.state disk.old).files (name_of (change_in piece.now)))) }
    ensures ok { D.tells
        → OnOk result (Sets (name_of (change_in piece.now)) (effect (change_in piece.now) ((D.state disk.old).files (name_of (change_in piece.now)))) (D.state disk.old).files (D.state disk.new).files) }
    ensures images { D.tells
        → Follows (ChangeLeaves (change_in piece.now) (D.state disk.old).files) (D.state disk.old).may_leave (D.state disk.new).may_leave }
    ensures time { D.tells
        → Passes (D.state disk.old) (D.state disk.new) (Through (ChangeLeaves (change_in piece.now) (D.state disk.old).files) (D.state disk.old).may_leave) }
    ensures faults { (D.state disk.old).faults ≤ (D.state disk.new).faults }
    ensures cause { OnErr result (Rose (D.state disk.old).faults (D.state disk.new).faults) }
    ensures no_fault { OnOk result ((D.state disk.new).faults ≡ (D.state disk.old).faults) }
{
    match *piece {
        Piece::Write { name, at, bytes } => disk.write(name, at, bytes),
        Piece::Fill {
            name,
            at,
            len,
            byte,
        } => fill(disk, name, at, len, byte),
        Piece::Cut { name, len } => disk.cut(name, len),
        Piece::Remove { name } => disk.remove(name),
    }
}

/// Makes all changes, and settles them.
pub(crate) fn apply<D: Disk>(disk: &mut D, changes: Changes) -> Result<(), Failed>
    requires plan { IsPlan changes }
    requires fits { D.tells → Fits changes (D.state disk.old).files }
    requires settled { D.tells → Only (D.state disk.old).files (D.state disk.old).may_leave }
    ensures ok { D.tells
        → OnOk result ((D.state disk.new).files ≡ changed changes.entry (D.state disk.old).files) }
    ensures partly { D.tells
        → OnOk result (IsPartly changes.entry (D.state disk.old).files (D.state disk.new).files) }
    ensures settled { D.tells → OnOk result (Only (D.state disk.new).files (D.state disk.new).may_leave) }
    ensures time { D.tells
        → Passes (D.state disk.old) (D.state disk.new) (IsPartly changes.entry (D.state disk.old).files) }
    ensures faults { (D.state disk.old).faults ≤ (D.state disk.new).faults }
    ensures cause { OnErr result (Rose (D.state disk.old).faults (D.state disk.new).faults) }
    ensures no_fault { OnOk result ((D.state disk.new).faults ≡ (D.state disk.old).faults) }
{
    let mut left = changes;
    while let Some(piece) = left.next() {
        apply_one(disk, &piece)?;
    }
    disk.sync()
}
