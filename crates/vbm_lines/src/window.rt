//! The bytes that a reader of lines holds.

ghost use Rattle.std.specs.Prelude.{◌≡◌, ◌<◌, ◌≤◌, ◌+◌, ◌-◌, ℕ, [], length, take, drop, IfOk, OnErr, MatchOption, IsTrue, ◌↔◌};
ghost use Rattle.std.specs.List.{position};
ghost use Rattle.vbm_ports.specs.Counts.{Rose};
ghost use Rattle.vbm_lines.specs.Lines.{is_newline, HasNoNewline};
ghost use Rattle.vbm_lines.specs.Window.{without_return, IsFirstNewline, Extends, Fills};

use crate::lines::ABOVE;
use std::marker::Model;
use vbm_ports::{Failed, Source};

// How many bytes there is room for: enough for the longest line, and as much again.
const ROOM: usize = 32768;

// Where less than this is free behind the bytes, they are moved to the front.
const LITTLE: usize = 4096;

/// Some of the bytes that were taken from a source, in their order.
#[derive(Drop)]
pub struct Window {
    room: [u8; ROOM],
    start: usize,
    end: usize,
}

impl Model for Window {
    ghost use Rattle.std.specs.Prelude.{◌≤◌, ◌-◌, take, drop};
    ghost use Rattle.vbm_lines.specs.Window.{Held};

    ghost Value = { Held };

    ghost view = { λ window. record { bytes = take (window.end - window.start) (drop window.start window.room); free = 32768 - window.end } };

    ghost invariant = { λ window. (window.start ≤ window.end) × (window.end ≤ 32768) };
}

/// The place of the first newline.
fn first_newline(bytes: &[u8]) -> Option<usize>
    ensures { result ≡ position is_newline bytes.now }
{
    bytes.iter().position(|b| *b == b'\n')
}

/// The place of the first newline, where there is none among the first `from` bytes.
pub fn newline_from(bytes: &[u8], from: usize) -> Option<usize>
    requires within { from ≤ length bytes.now }
    requires searched { HasNoNewline (take from bytes.now) }
    ensures { MatchOption result (HasNoNewline bytes.now) (λ at. IsFirstNewline bytes.now at) }
{
    match first_newline(&bytes[from..]) {
        None => None,
        Some(i) => Some(from + i),
    }
}

/// A line without a carriage return at its end.
pub fn strip_return(line: &[u8]) -> &[u8]
    ensures { result.now ≡ without_return line.now }
{
    match line.split_last() {
        Some((last, front)) if *last == b'\r' => front,
        _ => line,
    }
}

/// Takes at most `most` bytes to a place of a buffer.
fn take_at<S: Source>(
    source: &mut S,
    room: &mut [u8],
    at: usize,
    most: usize,
) -> Result<usize, Failed>
    requires some { 0 < most }
    requires within { at + most ≤ length room.old }
    ensures ok { S.tells → IfOk result (λ n. Fills (S.rest source.old) (S.rest source.new) room.old room.new at n) }
    ensures err { S.tells → OnErr result (S.rest source.new ≡ S.rest source.old) }
    ensures before { take at room.new ≡ take at room.old }
    ensures bound { IfOk result (λ n. n ≤ most) }
    ensures len { length room.new ≡ length room.old }
    ensures faults { S.faults source.old ≤ S.faults source.new }
    ensures cause { OnErr result (Rose (S.faults source.old) (S.faults source.new)) }
    ensures no_fault { IfOk result (λ _. S.faults source.new ≡ S.faults source.old) }
{
    source.take(&mut room[at..at + most])
}

/// A number that is neither above `most` nor above `space`.
fn at_most(most: u64, space: usize) -> usize
    ensures most { result ≤ most }
    ensures space { result ≤ space }
    ensures some { 0 < most → 0 < space → 0 < result }
{
    if most < space as u64 {
        most as usize
    } else {
        space
    }
}

impl Window {
    /// No bytes.
    pub fn new() -> Window
        ensures { result.bytes ≡ [] }
    {
        Window {
            room: [0; ROOM],
            start: 0,
            end: 0,
        }
    }

    /// Lends the bytes.
    pub fn bytes(&self) -> &[u8]
        ensures { result.now ≡ self.now.bytes }
    {
        &self.room[self.start..self.end]
    }

    /// How many bytes there are.
    pub fn len(&self) -> usize
        ensures { result ≡ length self.now.bytes }
    {
        self.end - self.start
    }

    /// Lets the first `n` bytes go.
    pub fn drop_front(&mut self, n: usize)
        requires { n ≤ length self.old.bytes }
        ensures { self.new.bytes ≡ drop n self.old.bytes }
    {
        self.start += n;
    }

    /// Lets the last byte go.
    pub fn drop_last(&mut self)
        requires { 0 < length self.old.bytes }
        ensures { self.new.bytes ≡ take (length self.old.bytes - 1) self.old.bytes }
    {
        self.end -= 1;
    }

    /// Lets all bytes go.
    pub fn clear(&mut self)
        ensures { self.new.bytes ≡ [] }
    {
        self.start = 0;
        self.end = 0;
    }

    /// Moves the bytes to the front of the room where little is free behind them.
    fn make_space(&mut self)
        requires { length self.old.bytes < ABOVE }
        ensures same { self.new.bytes ≡ self.old.bytes }
        ensures free { 0 < self.new.free }
    {
        if self.end <= ROOM - LITTLE {
            return;
        }
        self.room.copy_within(self.start..self.end, 0);
        self.end -= self.start;
        self.start = 0;
    }

    /// Takes bytes to the room that is free.
    fn fill<S: Source>(&mut self, source: &mut S, most: u64) -> Result<usize, Failed>
        requires some { 0 < most }
        requires free { 0 < self.old.free }
        ensures ok { S.tells → IfOk result (λ n. Extends (S.rest source.old) (S.rest source.new) self.old.bytes self.new.bytes n) }
        ensures err { S.tells → OnErr result (S.rest source.new ≡ S.rest source.old) }
        ensures before { take (length self.old.bytes) self.new.bytes ≡ self.old.bytes }
        ensures grown { IfOk result (λ n. length self.new.bytes ≡ length self.old.bytes + n) }
        ensures kept { OnErr result (self.new.bytes ≡ self.old.bytes) }
        ensures bound { IfOk result (λ n. n ≤ most) }
        ensures faults { S.faults source.old ≤ S.faults source.new }
        ensures cause { OnErr result (Rose (S.faults source.old) (S.faults source.new)) }
        ensures no_fault { IfOk result (λ _. S.faults source.new ≡ S.faults source.old) }
    {
        let most = at_most(most, ROOM - self.end);
        let n = take_at(source, &mut self.room, self.end, most)?;
        self.end += n;
        Ok(n)
    }

    /// Takes at most `most` bytes behind those that are held.
    pub fn take_more<S: Source>(&mut self, source: &mut S, most: u64) -> Result<usize, Failed>
        requires some { 0 < most }
        requires space { length self.old.bytes < ABOVE }
        ensures ok { S.tells → IfOk result (λ n. Extends (S.rest source.old) (S.rest source.new) self.old.bytes self.new.bytes n) }
        ensures err { S.tells → OnErr result (S.rest source.new ≡ S.rest source.old) }
        ensures before { take (length self.old.bytes) self.new.bytes ≡ self.old.bytes }
        ensures grown { IfOk result (λ n. length self.new.bytes ≡ length self.old.bytes + n) }
        ensures kept { OnErr result (self.new.bytes ≡ self.old.bytes) }
        ensures bound { IfOk result (λ n. n ≤ most) }
        ensures faults { S.faults source.old ≤ S.faults source.new }
        ensures cause { OnErr result (Rose (S.faults source.old) (S.faults source.new)) }
        ensures no_fault { IfOk result (λ _. S.faults source.new ≡ S.faults source.old) }
    {
        self.make_space();
        self.fill(source, most)
    }
}
