//! The top call.

ghost use Rattle.std.specs.Prelude.{◌≡◌, ◌≢◌, ◌<◌, ◌≤◌, ◌^◌, ◌↔◌, ℕ, List};
ghost use Rattle.vbm_ports.specs.Counts.{Rose, IsCounted};
ghost use Rattle.vbm_served.specs.Served.{IsCommand};
ghost use Rattle.vbm_world.specs.declared.command.Command.{Command};
ghost use Rattle.vbm_top.specs.Statuses.{code_of, status_in, is_disk_fault, AreCounted};
ghost use Rattle.vbm_top.specs.Streams.{stream, streams};
ghost use Rattle.vbm_top.specs.Run.{IsPeek, IsInit, IsScript, IsNoForm, RunsPeek, RunsInit, RunsCommand};
ghost use Rattle.vbm_top.specs.Script.{RunsScript};

use crate::commanding::do_command;
use crate::making::do_init;
use crate::peeking::do_peek;
use crate::scripting::do_script;
use crate::status::Status;
use crate::words::{init_words, is_script, peek_words};
use std::alloc::Global;
use uuid::Uuid;
use vbm_ports::{Disk, Sink, Source, Text};
use vbm_script::{ParseFault, parse_words};

/// Does the command of the words: the answer's line goes to the sink, and the status is one of `status`.
///
/// `fresh` is the seed of a new library where the words give none; `most` is how many bytes of the source make lines of a script.
pub fn run<D: Disk, S: Source, K: Sink>(
    alloc: Global,
    words: &[Text],
    fresh: Uuid,
    most: u64,
    disk: &mut D,
    source: &mut S,
    sink: &mut K,
) -> u8
    requires { most < 2 ^ 63 }
    // The result is the number of a status.
    ensures code { result ≡ code_of (status_in result) }

    // Status 2 comes exactly where the words are no command, and then nothing is written or read.
    ensures words { (result ≡ 2) ↔ IsNoForm words.now }
    ensures untouched { result ≡ 2 → (disk.new ≡ disk.old) × (sink.new ≡ sink.old) }

    // `peek` reads alone, and writes what the files hold.
    ensures peek { (names : List (List ℕ)) (lba : ℕ) → IsPeek words.now names lba
        → RunsPeek D.tells names lba (D.state disk.old) (D.state disk.new) (stream K.tells K.written K.faults sink.old sink.new) (status_in result) }

    // `init` makes a library.
    ensures init { (seed : List ℕ) → IsInit words.now fresh seed
        → RunsInit D.tells seed (D.state disk.old) (D.state disk.new) (stream K.tells K.written K.faults sink.old sink.new) (status_in result) }

    // A command of the machine is a step of the world that the files stand for.
    ensures command { (c : Command) → IsCommand words.now c
        → RunsCommand D.tells c (D.state disk.old) (D.state disk.new) (stream K.tells K.written K.faults sink.old sink.new) (status_in result) }

    // A script's lines are answered in their order, each before the next is read, and a crash leaves no world that is ahead of the
    // answers by more than the command that ran.
    ensures script { IsScript words.now → RunsScript D.tells most (D.state disk.old) (D.state disk.new)
        (streams (stream S.tells S.rest S.faults source.old source.new)
        (stream K.tells K.written K.faults sink.old sink.new)) (status_in result) }

    // Nothing but a script takes bytes from the source.
    ensures source { (IsScript words.now → ⊥) → source.new ≡ source.old }

    // The status tells which device failed. Behind a fault of the disk nothing is known of the others.
    ensures faults { (D.state disk.old).faults ≤ (D.state disk.new).faults }
    ensures disk_fault { result ≡ 3 → Rose (D.state disk.old).faults (D.state disk.new).faults }
    ensures no_disk_fault { result ≢ 3 → (D.state disk.new).faults ≡ (D.state disk.old).faults }
    ensures input_fault { result ≡ 4 → Rose (S.faults source.old) (S.faults source.new) }
    ensures no_input_fault { result ≢ 3 → result ≢ 4 → S.faults source.new ≡ S.faults source.old }
    ensures output_fault { result ≡ 5 → Rose (K.faults sink.old) (K.faults sink.new) }
    ensures no_output_fault { result ≢ 3 → result ≢ 5 → K.faults sink.new ≡ K.faults sink.old }
{
    run_words(alloc, words, fresh, most, disk, source, sink).code()
}

/// Does the command of the words, and gives the status itself.
fn run_words<D: Disk, S: Source, K: Sink>(
    alloc: Global,
    words: &[Text],
    fresh: Uuid,
    most: u64,
    disk: &mut D,
    source: &mut S,
    sink: &mut K,
) -> Status
    requires { most < 2 ^ 63 }
    ensures words { (result ≡ Status.NoForm) ↔ IsNoForm words.now }
    ensures untouched { result ≡ Status.NoForm → (disk.new ≡ disk.old) × (sink.new ≡ sink.old) }
    ensures peek { (names : List (List ℕ)) (lba : ℕ) → IsPeek words.now names lba
        → RunsPeek D.tells names lba (D.state disk.old) (D.state disk.new) (stream K.tells K.written K.faults sink.old sink.new) result }
    ensures init { (seed : List ℕ) → IsInit words.now fresh seed
        → RunsInit D.tells seed (D.state disk.old) (D.state disk.new) (stream K.tells K.written K.faults sink.old sink.new) result }
    ensures command { (c : Command) → IsCommand words.now c
        → RunsCommand D.tells c (D.state disk.old) (D.state disk.new) (stream K.tells K.written K.faults sink.old sink.new) result }
    ensures script { IsScript words.now → RunsScript D.tells most (D.state disk.old) (D.state disk.new)
        (streams (stream S.tells S.rest S.faults source.old source.new)
        (stream K.tells K.written K.faults sink.old sink.new)) result }
    ensures source { (IsScript words.now → ⊥) → source.new ≡ source.old }
    ensures faults { IsCounted (is_disk_fault result) (D.state disk.old).faults (D.state disk.new).faults }
    ensures counted { AreCounted (streams (stream S.tells S.rest S.faults source.old source.new)
        (stream K.tells K.written K.faults sink.old sink.new)) result }
{
    if let Some((files, lba)) = peek_words(words) {
        return do_peek(alloc, disk, sink, files, lba);
    }
    if let Some(seed) = init_words(words, fresh) {
        return do_init(alloc, disk, sink, seed);
    }
    if is_script(words) {
        return do_script(alloc, most, disk, source, sink);
    }
    match parse_words(alloc, words) {
        Ok(command) => do_command(alloc, disk, sink, &command),
        Err(ParseFault::BadLine) => Status::NoForm,
        Err(ParseFault::NoMemory) => Status::NoMemory,
    }
}
