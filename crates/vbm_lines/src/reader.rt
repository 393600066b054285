//! The lines of a source.

ghost use Rattle.std.specs.Prelude.{◌≡◌, ◌<◌, ◌≤◌, ◌+◌, ◌^◌, ℕ, List, length, take, IfOk, OnOk, OnErr, IsTrue, IsFalse};
ghost use Rattle.std.specs.List.{list_any};
ghost use Rattle.vbm_ports.specs.Counts.{Rose, IsCounted};
ghost use Rattle.vbm_lines.specs.Lines.{is_newline, HasNoNewline, Line};
ghost use Rattle.vbm_lines.specs.Reader.{new_reader, IsAt, GivesLine, OnReadFault, OnText, OnLine, failed_to_read, left_over};
ghost use Rattle.vbm_lines.specs.Steps.{IsNext, with_counted, turns};
ghost use Rattle.vbm_lines.specs.Window.{IsFirstNewline};

use crate::lines::{ABOVE, LONGEST_LINE};
use crate::window::{Window, newline_from, strip_return};
use std::alloc::Global;
use std::marker::Model;
use vbm_ports::{Failed, NoMemory, Source, Text};

/// What a source gives next.
#[derive(Drop)]
pub enum Next {
    /// A line, without the newline that ends it and one carriage return before that.
    Line(Text),
    /// A line of more than [`LONGEST_LINE`] bytes, which was taken to its end.
    Long,
    /// All lines were read.
    End,
    /// The source failed. The bytes that were taken are kept.
    ReadFault,
    /// The input has more bytes than lines are made of.
    Spent,
}

/// Reads lines from a source, which may give its bytes in any pieces.
#[derive(Drop)]
pub struct Lines {
    alloc: Global,
    most: u64,
    taken: u64,
    window: Window,
    skipping: bool,
    ended: bool,
}

impl Model for Lines {
    ghost use Rattle.std.specs.Prelude.{◌≤◌, ◌<◌, ◌+◌, ◌^◌};
    ghost use Rattle.vbm_lines.specs.Reader.{Reader};

    ghost Value = { Reader };

    ghost view = { λ lines. record { most = lines.most; taken = lines.taken; held = lines.window.bytes; skipping = lines.skipping; ended = lines.ended } };

    ghost invariant = { λ lines. (lines.most < 2 ^ 63) × (lines.taken ≤ lines.most + 1) };
}

/// What is given for a line of which these bytes are held.
fn next_of(alloc: Global, line: &[u8], skipping: bool) -> Result<Next, NoMemory>
    ensures { IfOk result (λ next. IsNext next skipping line.now) }
{
    if skipping || line.len() > LONGEST_LINE {
        return Ok(Next::Long);
    }
    Ok(Next::Line(Text::new(alloc, line)?))
}

impl Lines {
    /// A reader that makes lines of at most the first `most` bytes of a source.
    pub fn new(alloc: Global, most: u64) -> Lines
        requires { most < 2 ^ 63 }
        ensures { result ≡ new_reader most }
    {
        Lines {
            alloc,
            most,
            taken: 0,
            window: Window::new(),
            skipping: false,
            ended: false,
        }
    }

    /// Gives the line that the first newline ends, or keeps it.
    fn give_line(&mut self, at: usize) -> Result<Next, NoMemory>
        requires { IsFirstNewline self.old.held at }
        ensures lines { (input rest : List ℕ) (lines : List Line) → IsAt self.old input rest lines
            → IfOk result (λ next. GivesLine next self.new input rest lines) }
        ensures kept { OnErr result (self.new ≡ self.old) }
        ensures short { IfOk result (OnText (λ line. length line ≤ LONGEST_LINE)) }
        ensures less { OnOk result (left_over self.new < left_over self.old) }
        ensures no_fault { IfOk result (OnReadFault ⊥) }
        ensures frame { self.new ≡ record self.old { held = self.new.held; skipping = self.new.skipping } }
    {
        let line = strip_return(&self.window.bytes()[..at]);
        let next = next_of(self.alloc, line, self.skipping)?;
        self.window.drop_front(at + 1);
        self.skipping = false;
        Ok(next)
    }

    /// Gives the last line, which has no newline, or keeps it.
    fn give_last(&mut self) -> Result<Next, NoMemory>
        requires ended { IsTrue self.old.ended }
        requires none { HasNoNewline self.old.held }
        ensures lines { (input rest : List ℕ) (lines : List Line) → IsAt self.old input rest lines
            → IfOk result (λ next. GivesLine next self.new input rest lines) }
        ensures kept { OnErr result (self.new ≡ self.old) }
        ensures short { IfOk result (OnText (λ line. length line ≤ LONGEST_LINE)) }
        ensures less { IfOk result (OnLine (left_over self.new < left_over self.old)) }
        ensures no_fault { IfOk result (OnReadFault ⊥) }
        ensures frame { self.new ≡ record self.old { held = self.new.held; skipping = self.new.skipping } }
    {
        if self.window.len() == 0 && !self.skipping {
            return Ok(Next::End);
        }
        let next = next_of(self.alloc, self.window.bytes(), self.skipping)?;
        self.window.clear();
        self.skipping = false;
        Ok(next)
    }

    /// Lets the bytes go where they are of a line that is too long. Gives how many are held.
    fn drop_long(&mut self) -> usize
        requires { HasNoNewline self.old.held }
        ensures lines { (input rest : List ℕ) (lines : List Line) → IsAt self.old input rest lines → IsAt self.new input rest lines }
        ensures none { HasNoNewline self.new.held }
        ensures held { result ≡ length self.new.held }
        ensures space { length self.new.held < ABOVE }
        ensures left { left_over self.new ≤ left_over self.old }
        ensures frame { self.new ≡ record self.old { held = self.new.held; skipping = self.new.skipping } }
    {
        if self.window.len() >= ABOVE {
            self.window.clear();
            self.skipping = true;
            return 0;
        }
        self.window.len()
    }

    /// Counts what was taken. The byte past `most` is left out.
    fn count(&mut self, n: usize)
        requires within { self.old.taken ≤ self.old.most }
        requires fits { self.old.taken + n ≤ self.old.most + 1 }
        requires some { n ≤ length self.old.held }
        ensures { self.new ≡ with_counted self.old n }
    {
        self.ended = n == 0;
        self.taken += n as u64;
        if self.taken > self.most {
            self.window.drop_last();
        }
    }

    /// Takes more bytes, or finds the end of input.
    fn take_more<S: Source>(&mut self, source: &mut S) -> Result<(), Failed>
        requires more { IsFalse self.old.ended }
        requires within { self.old.taken ≤ self.old.most }
        requires space { length self.old.held < ABOVE }
        ensures lines { S.tells → (input : List ℕ) (lines : List Line) → IsAt self.old input (S.rest source.old) lines
            → IsAt self.new input (S.rest source.new) lines }
        ensures kept { OnErr result (self.new ≡ self.old) }
        ensures before { take (length self.old.held) self.new.held ≡ self.old.held }
        ensures same { (self.new.most ≡ self.old.most) × (self.new.skipping ≡ self.old.skipping) }
        ensures left { left_over self.new ≤ left_over self.old }
        ensures turn { OnOk result (turns self.new < turns self.old) }
        ensures faults { S.faults source.old ≤ S.faults source.new }
        ensures cause { OnErr result (Rose (S.faults source.old) (S.faults source.new)) }
        ensures no_fault { OnOk result (S.faults source.new ≡ S.faults source.old) }
    {
        let n = self.window.take_more(source, self.most + 1 - self.taken)?;
        self.count(n);
        Ok(())
    }

    /// Reads the next line. No more than one byte past `most` is ever taken, and none while a whole line is held or after the end.
    /// Without memory the bytes that were taken are kept, and the source has not failed.
    pub fn next_line<S: Source>(&mut self, source: &mut S) -> Result<Next, NoMemory>
        ensures lines { S.tells → (input : List ℕ) (lines : List Line) → IsAt self.old input (S.rest source.old) lines
            → IfOk result (λ next. GivesLine next self.new input (S.rest source.new) lines) }
        ensures kept { S.tells → (input : List ℕ) (lines : List Line) → IsAt self.old input (S.rest source.old) lines
            → OnErr result (IsAt self.new input (S.rest source.new) lines) }
        ensures short { IfOk result (OnText (λ line. length line ≤ LONGEST_LINE)) }
        ensures less { IfOk result (OnLine (left_over self.new < left_over self.old)) }
        ensures bound { self.new.taken ≤ self.new.most + 1 }
        ensures most { self.new.most ≡ self.old.most }
        ensures whole_line_held { IsTrue (list_any is_newline self.old.held) → source.new ≡ source.old }
        ensures after_end { IsTrue self.old.ended → source.new ≡ source.old }
        ensures counted { IsCounted (failed_to_read result) (S.faults source.old) (S.faults source.new) }
    {
        let mut from = 0;
        'takes: loop {
            if let Some(at) = newline_from(self.window.bytes(), from) {
                return self.give_line(at);
            }
            if self.ended {
                return self.give_last();
            }
            if self.taken > self.most {
                return Ok(Next::Spent);
            }
            from = self.drop_long();
            if self.take_more(source).is_err() {
                return Ok(Next::ReadFault);
            }
        }
    }
}
