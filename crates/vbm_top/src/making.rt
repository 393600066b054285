//! Making a library.

ghost use Rattle.std.specs.Prelude.{◌≡◌, ◌⊎◌, ◌≤◌};
ghost use Rattle.vbm_ports.specs.Counts.{IsCounted};
ghost use Rattle.vbm_ports.specs.Disk.{Passes};
ghost use Rattle.vbm_engine.specs.Opens.{IsMaking};
ghost use Rattle.vbm_top.specs.Statuses.{is_disk_fault};
ghost use Rattle.vbm_top.specs.Streams.{stream};
ghost use Rattle.vbm_top.specs.Run.{InitEnds, SyncsOrFails};

use crate::saying::{write_answer, write_line, write_store};
use crate::status::Status;
use std::alloc::Global;
use uuid::Uuid;
use vbm_engine::{Made, make_library};
use vbm_ports::{Disk, Sink};
use vbm_world::Answer;

/// Does `init` with a seed.
pub(crate) fn do_init<D: Disk, K: Sink>(
    alloc: Global,
    disk: &mut D,
    sink: &mut K,
    seed: Uuid,
) -> Status
    ensures ends { InitEnds D.tells seed (D.state disk.old) (D.state disk.new) (stream K.tells K.written K.faults sink.old sink.new) result }
    ensures any_moment { D.tells → Passes (D.state disk.old) (D.state disk.new)
        (λ image. (D.state disk.old).may_leave image ⊎ IsMaking seed (D.state disk.old).files image) }
    ensures synced { D.tells
        → SyncsOrFails D.tells (D.state disk.old) (D.state disk.new) result (IsMaking seed (D.state disk.old).files) }
    ensures faults { IsCounted (is_disk_fault result) (D.state disk.old).faults (D.state disk.new).faults }
{
    match make_library(alloc, disk, seed) {
        Made::Done => write_answer(alloc, sink, &Answer::Id(seed)),
        Made::Refused(bad) => write_store(alloc, sink, &bad),
        Made::There => write_line(sink, b"store 0 LibraryThere\n", Status::StoreRefused),
        Made::Failed => Status::DiskFault,
        Made::NoMemory => Status::NoMemory,
    }
}
