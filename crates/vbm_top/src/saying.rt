//! Lines that go out, and their statuses.

ghost use Rattle.std.specs.Prelude.{◌≡◌, ◌++◌, IfOk, codes, string_bytes};
ghost use Rattle.vbm_world.specs.Texts.{line_of};
ghost use Rattle.vbm_top.specs.Streams.{stream};
ghost use Rattle.vbm_top.specs.Run.{store_text, store_line, status_of, WritesLine, Says};

use crate::status::Status;
use std::alloc::{AllocError, Global};
use vbm_engine::BadStore;
use vbm_ports::{Sink, Text, put_all};
use vbm_script::answer_text;
use vbm_world::Answer;

/// Writes a line, and gives the status: this one, unless the sink failed.
pub(crate) fn write_line<K: Sink>(sink: &mut K, line: &[u8], status: Status) -> Status
    ensures { WritesLine (stream K.tells K.written K.faults sink.old sink.new) line.now status result }
{
    match put_all(sink, line) {
        Ok(()) => status,
        Err(_) => Status::OutputFault,
    }
}

/// The status of an answer.
fn status_of(answer: &Answer) -> Status
    ensures { result ≡ status_of answer.now }
{
    match answer {
        Answer::Refused(_) => Status::Refused,
        _ => Status::Done,
    }
}

/// A text and a newline.
fn line_of(alloc: Global, text: &[u8]) -> Result<Vec<u8>, AllocError>
    ensures { IfOk result (λ line. line.items ≡ text.now ++ codes "\n") }
{
    let mut line = Vec::from_slice(alloc, text)?;
    line.push(b'\n')?;
    Ok(line)
}

/// Writes the line of a text with its status.
fn write_text<K: Sink>(alloc: Global, sink: &mut K, text: &[u8], status: Status) -> Status
    ensures { Says (stream K.tells K.written K.faults sink.old sink.new) (text.now ++ codes "\n") status result }
{
    match line_of(alloc, text) {
        Ok(line) => write_line(sink, line.as_slice(), status),
        Err(_) => Status::NoMemory,
    }
}

/// Writes the line of an answer, and gives its status.
pub(crate) fn write_answer<K: Sink>(alloc: Global, sink: &mut K, answer: &Answer) -> Status
    ensures { Says (stream K.tells K.written K.faults sink.old sink.new) (line_of answer.now) (status_of answer.now) result }
{
    match answer_text(alloc, answer) {
        Ok(text) => write_text(alloc, sink, text.bytes(), status_of(answer)),
        Err(_) => Status::NoMemory,
    }
}

/// A text with a name.
fn named(alloc: Global, head: &[u8], name: &[u8], tail: &[u8]) -> Result<Vec<u8>, AllocError>
    ensures { IfOk result (λ text. text.items ≡ head.now ++ name.now ++ tail.now) }
{
    let mut text = Vec::from_slice(alloc, head)?;
    text.extend_from_slice(name)?;
    text.extend_from_slice(tail)?;
    Ok(text)
}

fn offset_text(alloc: Global, offset: u32) -> Result<Vec<u8>, AllocError>
    ensures { IfOk result (λ text. text.items ≡ store_text (BadStore.BadLibrary offset)) }
{
    Ok(format!(in alloc; "store 3 BadLibrary {offset}")?.into_bytes())
}

fn image_text(alloc: Global, name: &Text, condition: u32) -> Result<Vec<u8>, AllocError>
    ensures { IfOk result (λ text. text.items ≡ store_text (BadStore.BadImage name.now condition)) }
{
    let tail = format!(in alloc; " {condition}")?;
    named(alloc, b"store 5 BadImage ", name.bytes(), tail.as_bytes())
}

/// The text of a refused store.
fn store_text(alloc: Global, bad: &BadStore) -> Result<Vec<u8>, AllocError>
    ensures { IfOk result (λ text. text.items ≡ store_text bad.now) }
{
    match bad {
        BadStore::NoLibrary => Vec::from_slice(alloc, b"store 1 NoLibrary"),
        BadStore::BadLog => Vec::from_slice(alloc, b"store 2 BadLog"),
        BadStore::BadLibrary(offset) => offset_text(alloc, *offset),
        BadStore::MissingFile(name) => named(alloc, b"store 4 MissingFile ", name.bytes(), b""),
        BadStore::BadImage(name, condition) => image_text(alloc, name, *condition),
        BadStore::WrongType(name) => named(alloc, b"store 6 WrongType ", name.bytes(), b""),
        BadStore::WrongId(name) => named(alloc, b"store 7 WrongId ", name.bytes(), b""),
        BadStore::BrokenLink(name) => named(alloc, b"store 8 BrokenLink ", name.bytes(), b""),
        BadStore::SameId(name) => named(alloc, b"store 9 SameId ", name.bytes(), b""),
    }
}

/// Writes the line of a refused store, and gives its status.
pub(crate) fn write_store<K: Sink>(alloc: Global, sink: &mut K, bad: &BadStore) -> Status
    ensures { Says (stream K.tells K.written K.faults sink.old sink.new) (store_line bad.now) Status.StoreRefused result }
{
    match store_text(alloc, bad) {
        Ok(text) => write_text(alloc, sink, text.as_slice(), Status::StoreRefused),
        Err(_) => Status::NoMemory,
    }
}
