//! The step of the machine, plain and slow: each step copies all disks.

ghost use Rattle.std.specs.Prelude.{◌≡◌, IfOk};
ghost use Rattle.vbm_named.specs.Names.{Rises};
ghost use Rattle.vbm_world.specs.Step.{step_of};
ghost use Rattle.vbm_world.specs.Seen.{seen, file_name};
ghost use Rattle.vbm_world.specs.Sound.{IsSound};
ghost use Rattle.vbm_world.specs.Texts.{IsSpelled};

use crate::command::{Answer, Command, Size};
use crate::world::World;
use std::alloc::Global;
use vbm_ports::NoMemory;

impl World {
    /// The step of the machine: the world after a command, and the answer.
    ///
    /// It is the machine's definition as a program, plain and slow: it copies all disks. The number of `usage`, which is not the
    /// machine's to know, is 0.
    pub fn step(&self, alloc: Global, command: &Command) -> Result<(World, Answer), NoMemory>
        requires sound { IsSound (seen self.now) }
        requires order { Rises file_name self.now.shelf }
        requires spelled { IsSpelled command.now }
        ensures answer { IfOk result (λ r. r.1 ≡ (step_of (seen self.now) command.now 0).0) }
        ensures world { IfOk result (λ r. seen r.0 ≡ (step_of (seen self.now) command.now 0).1) }
        ensures sound { IfOk result (λ r. IsSound (seen r.0)) }
        ensures order { IfOk result (λ r. Rises file_name r.0.shelf) }
    {
        match command {
            Command::CreateMedium {
                name,
                size,
                variant,
            } => self.create_medium(alloc, name.bytes(), *size, *variant),
            Command::OpenMedium { name } => self.open_medium(alloc, name.bytes()),
            Command::CloseMedium { name, delete } => {
                self.close_medium(alloc, name.bytes(), *delete)
            }
            Command::SetMode { name, mode } => self.set_mode(alloc, name.bytes(), *mode),
            Command::SetAutoreset { vm, port, on } => {
                self.set_autoreset(alloc, vm.bytes(), *port, *on)
            }
            Command::Compact { place } => self.compact(alloc, place),
            Command::Resize { name, mb } => self.resize(
                alloc,
                name.bytes(),
                Size::Mb(*mb).capacity(),
            ),
            Command::CloneNew { place, name } => self.clone_new(alloc, place, name.bytes()),
            Command::CloneExisting { place, target } => {
                self.clone_existing(alloc, place, target.bytes())
            }
            Command::ImportChain { files, name } => {
                self.import_chain(alloc, files.as_slice(), name.bytes())
            }
            Command::ShowMediumInfo { name } => self.show_medium_info(alloc, name.bytes()),
            Command::Usage { place } => self.usage(alloc, place),
            Command::ListHdds => self.list_hdds(alloc),
            Command::ListVms => self.list_vms(alloc),
            Command::CreateVm { name } => self.create_vm(alloc, name.bytes()),
            Command::UnregisterVm { vm } => self.unregister_vm(alloc, vm.bytes()),
            Command::Attach { vm, port, name } => {
                self.attach_medium(alloc, vm.bytes(), *port, name.bytes())
            }
            Command::Detach { vm, port } => self.detach_medium(alloc, vm.bytes(), *port),
            Command::StartVm { vm } => self.start_vm(alloc, vm.bytes()),
            Command::PowerOff { vm } => self.power_off(alloc, vm.bytes()),
            Command::Take { vm, name } => self.take_snapshot(alloc, vm.bytes(), name.bytes()),
            Command::Restore { vm, snapshot } => {
                self.restore_snapshot(alloc, vm.bytes(), snapshot.bytes())
            }
            Command::RestoreCurrent { vm } => self.restore_current(alloc, vm.bytes()),
            Command::DeleteSnapshot { vm, snapshot } => {
                self.delete_snapshot(alloc, vm.bytes(), snapshot.bytes())
            }
            Command::ListSnapshots { vm } => self.list_snapshots(alloc, vm.bytes()),
            Command::Read {
                vm,
                port,
                lba,
                count,
            } => self.read(alloc, vm.bytes(), *port, *lba, *count),
            Command::Write {
                vm,
                port,
                lba,
                bytes,
            } => self.write(alloc, vm.bytes(), *port, *lba, bytes.as_slice()),
            Command::Fill {
                vm,
                port,
                lba,
                count,
                byte,
            } => self.fill(alloc, vm.bytes(), *port, *lba, *count, *byte),
            Command::Flush { vm } => self.flush(alloc, vm.bytes()),
        }
    }
}
