//! What guests do, plain and slow: each command copies all disks.

ghost use Rattle.std.specs.Prelude.{◌≡◌, ◌+◌, ◌≤◌, ◌<◌, ◌==◌, ◌&&◌, false, length, if◌then◌else◌, IfOk, Some};
ghost use Rattle.vbm_ids.specs.Identifier.{identifier_of};
ghost use Rattle.vbm_ids.specs.declared.Kind.TheVariants as kinds;
ghost use Rattle.vbm_named.specs.Names.{Rises, change_by};
ghost use Rattle.vbm_world.specs.World.{medium_name, medium_of};
ghost use Rattle.vbm_world.specs.Places.{with_slot, with_machine};
ghost use Rattle.vbm_world.specs.Refusals.{first_refusal, is_spent};
ghost use Rattle.vbm_world.specs.Outcomes.{unless_refused};
ghost use Rattle.vbm_world.specs.Guests.{disk_in, is_past, read_checks, bytes_at, read_sectors};
ghost use Rattle.vbm_world.specs.Guests.{with_sectors, sectors_in, filled, is_first_write, written_medium, written};
ghost use Rattle.vbm_world.specs.Guests.{write_checks, write_sectors, flush};
ghost use Rattle.vbm_world.specs.Seen.{seen, outcome_of};
ghost use Rattle.vbm_world.specs.Sound.{IsSound};
ghost use Rattle.vbm_world.specs.declared.command.Answer.TheVariants as answers;

use crate::command::{Answer, Refusal};
use crate::lookups::slot_at;
use crate::media::Stepped;
use crate::world::{World, WorldMachine, WorldMedia, WorldMedium, WorldSlot, WorldSlots};
use std::alloc::Global;
use uuid::Uuid;
use vbm_ids::{Kind, NUMBER_LIMIT, id_of};
use vbm_modes::writable;
use vbm_named::names::is_same;
use vbm_ports::{Bytes, Copied, NoMemory, Sequence};
use vbm_volume::{Flat, Sector};

// The bytes of sectors of a disk.
fn bytes_at(alloc: Global, disk: &Flat, lba: u64, count: u32) -> Result<Bytes, NoMemory>
    requires { lba + count ≤ length disk.now }
    ensures { IfOk result (λ bytes. bytes ≡ bytes_at disk.now lba count) }
{
    // The length is what shows that the sums fit.
    let _len = disk.len();
    let mut bytes = Vec::new(alloc);
    for i in 0..u64::from(count) {
        let Ok(()) = bytes.extend_from_slice(disk.get(lba + i)) else {
            return Err(NoMemory);
        };
    }
    Ok(Sequence::from_vec(bytes))
}

// Bytes as sectors. Those behind the last whole sector are left out.
#[tactic(auto, unfolding(vbm_volume::specs::Sectors::first_sectors))]
fn sectors_in(alloc: Global, bytes: &[u8]) -> Result<Sequence<Sector>, NoMemory>
    ensures { IfOk result (λ sectors. sectors ≡ sectors_in bytes.now) }
{
    let mut sectors = Sequence::new(alloc);
    for i in 0..bytes.len() / 512 {
        let mut sector = [0; 512];
        sector.copy_from_slice(&bytes[i * 512..i * 512 + 512]);
        sectors.push(sector)?;
    }
    Ok(sectors)
}

// Sectors filled with a byte.
fn filled(alloc: Global, count: u32, byte: u8) -> Result<Sequence<Sector>, NoMemory>
    ensures { IfOk result (λ sectors. sectors ≡ filled count byte) }
{
    let mut sectors = Sequence::new(alloc);
    for _sector in 0..count {
        sectors.push([byte; 512])?;
    }
    Ok(sectors)
}

// Replaces sectors of a disk, from one on.
fn replace_sectors(disk: &mut Flat, lba: u64, sectors: &[Sector])
    requires { lba + length sectors.now ≤ length disk.old }
    ensures { disk.new ≡ with_sectors disk.old lba sectors.now }
{
    // The length is what shows that the sums fit.
    let _len = disk.len();
    for (i, sector) in sectors.iter().enumerate() {
        disk.set(lba + i as u64, sector);
    }
}

// A slot, with this disk if it is the one at the port.
fn slot_with(alloc: Global, slot: &WorldSlot, port: u8, disk: &Flat) -> Result<WorldSlot, NoMemory>
    ensures { IfOk result (λ all. all ≡ (if slot.now.port == port then record slot.now { own = Some disk.now } else slot.now)) }
{
    let mut copy = slot.copied(alloc)?;
    if slot.port == port {
        copy.own = Some(disk.copied(alloc)?);
    }
    Ok(copy)
}

// Slots, of which the one at a port has this disk.
fn slots_with(
    alloc: Global,
    slots: &[WorldSlot],
    port: u8,
    disk: &Flat,
) -> Result<WorldSlots, NoMemory>
    ensures { IfOk result (λ all. all ≡ with_slot port (λ t. record t { own = Some disk.now }) slots.now) }
{
    let mut all = Sequence::new(alloc);
    for slot in slots {
        all.push(slot_with(alloc, slot, port, disk)?)?;
    }
    Ok(all)
}

impl World {
    // A copy of a slot's disk.
    fn disk_in(&self, alloc: Global, slot: &WorldSlot) -> Result<Flat, NoMemory>
        ensures { IfOk result (λ disk. disk ≡ disk_in (seen self.now) slot.now) }
    {
        match self.slot_disk(slot) {
            Some(disk) => disk.copied(alloc),
            None => Flat::zeros(alloc, 0),
        }
    }

    // How many sectors a slot's disk has.
    fn sectors_of(&self, slot: &WorldSlot) -> u64
        ensures { result ≡ length (disk_in (seen self.now) slot.now) }
    {
        match self.slot_disk(slot) {
            Some(disk) => disk.len(),
            None => 0,
        }
    }

    // Whether sectors reach past the end of a slot's disk.
    fn is_past(&self, slot: &WorldSlot, lba: u64, count: u64) -> bool
        ensures { result ≡ is_past (disk_in (seen self.now) slot.now) lba count }
    {
        u128::from(lba) + u128::from(count) > u128::from(self.sectors_of(slot))
    }

    fn read_refusal(
        &self,
        machine: &WorldMachine,
        slot: &WorldSlot,
        lba: u64,
        count: u32,
    ) -> Option<Refusal>
        ensures { result ≡ first_refusal (read_checks (seen self.now) machine.now slot.now lba count) }
    {
        if !machine.running {
            return Some(Refusal::NotRunning);
        }
        if self.is_past(slot, lba, u64::from(count)) {
            return Some(Refusal::OutOfRange);
        }
        None
    }

    // Reads sectors of a slot where no check refuses it.
    fn read_allowed(&self, alloc: Global, slot: &WorldSlot, lba: u64, count: u32) -> Stepped
        requires { lba + count ≤ length (disk_in (seen self.now) slot.now) }
        ensures outcome { IfOk result (λ r. outcome_of r ≡ (answers.Sectors (bytes_at (disk_in (seen self.now) slot.now) lba count), seen self.now)) }
        ensures shelf { IfOk result (λ r. r.0.shelf ≡ self.now.shelf) }
    {
        let disk = self.disk_in(alloc, slot)?;
        let bytes = bytes_at(alloc, &disk, lba, count)?;
        Ok((self.copied(alloc)?, Answer::Sectors(bytes)))
    }

    fn read_slot(
        &self,
        alloc: Global,
        machine: &WorldMachine,
        slot: &WorldSlot,
        lba: u64,
        count: u32,
    ) -> Stepped
        ensures outcome { IfOk result (λ r. outcome_of r ≡ unless_refused (seen self.now)
            (read_checks (seen self.now) machine.now slot.now lba count)
            (answers.Sectors (bytes_at (disk_in (seen self.now) slot.now) lba count), seen self.now)) }
        ensures shelf { IfOk result (λ r. r.0.shelf ≡ self.now.shelf) }
    {
        match self.read_refusal(machine, slot, lba, count) {
            Some(refusal) => self.refused(alloc, refusal),
            None => self.read_allowed(alloc, slot, lba, count),
        }
    }

    pub(crate) fn read(&self, alloc: Global, vm: &[u8], port: u8, lba: u64, count: u32) -> Stepped
        ensures outcome { IfOk result (λ r. outcome_of r ≡ read_sectors (seen self.now) vm.now port lba count) }
        ensures shelf { IfOk result (λ r. r.0.shelf ≡ self.now.shelf) }
    {
        let Some(machine) = self.machine(vm) else {
            return self.refused(alloc, Refusal::NoSuchMachine);
        };
        let Some(slot) = slot_at(machine.slots.as_slice(), port) else {
            return self.refused(alloc, Refusal::NoSuchSlot);
        };
        self.read_slot(alloc, machine, slot, lba, count)
    }

    pub(crate) fn flush(&self, alloc: Global, vm: &[u8]) -> Stepped
        ensures outcome { IfOk result (λ r. outcome_of r ≡ flush (seen self.now) vm.now) }
        ensures shelf { IfOk result (λ r. r.0.shelf ≡ self.now.shelf) }
    {
        let Some(machine) = self.machine(vm) else {
            return self.refused(alloc, Refusal::NoSuchMachine);
        };
        if !machine.running {
            return self.refused(alloc, Refusal::NotRunning);
        }
        Ok((self.copied(alloc)?, Answer::Done))
    }

    // The modification identifier that a medium has once its disk was written.
    fn modify_after(&self, medium: &WorldMedium) -> Uuid
        requires { medium.now.changed ≡ false → self.now.next < NUMBER_LIMIT }
        ensures { result ≡ (if medium.now.changed then medium.now.modify else identifier_of self.now.seed kinds.Modify self.now.next) }
    {
        if medium.changed {
            medium.modify
        } else {
            id_of(self.seed, Kind::Modify, self.next)
        }
    }

    // How many identifiers of media were drawn once its disk was written.
    fn next_after(&self, medium: &WorldMedium) -> u64
        requires { medium.now.changed ≡ false → self.now.next < NUMBER_LIMIT }
        ensures { result ≡ (if medium.now.changed then self.now.next else self.now.next + 1) }
    {
        if medium.changed {
            self.next
        } else {
            self.next + 1
        }
    }

    // A medium whose disk was written.
    fn written_medium(
        &self,
        alloc: Global,
        medium: &WorldMedium,
        disk: Flat,
    ) -> Result<WorldMedium, NoMemory>
        requires { medium.now.changed ≡ false → self.now.next < NUMBER_LIMIT }
        ensures { IfOk result (λ new. new ≡ written_medium (seen self.now) disk medium.now) }
    {
        Ok(WorldMedium {
            name: medium.name.copied(alloc)?,
            id: medium.id,
            modify: self.modify_after(medium),
            changed: true,
            mode: medium.mode,
            variant: medium.variant,
            capacity: medium.capacity,
            flat: Some(disk),
        })
    }

    // The media, with one in the place of that of its name.
    fn written_media(&self, alloc: Global, new: &WorldMedium) -> Result<WorldMedia, NoMemory>
        ensures { IfOk result (λ media. media ≡ change_by medium_name new.now.name (λ _. new.now) self.now.media) }
    {
        let mut media = Sequence::new(alloc);
        for medium in self.media.as_slice() {
            if is_same(medium.name.bytes(), new.name.bytes()) {
                media.push(new.copied(alloc)?)?;
            } else {
                media.push(medium.copied(alloc)?)?;
            }
        }
        Ok(media)
    }

    // The world after a medium's disk was written.
    fn write_medium(
        &self,
        alloc: Global,
        medium: &WorldMedium,
        disk: Flat,
    ) -> Result<World, NoMemory>
        requires order { Rises medium_name self.now.media }
        requires found { medium_of (seen self.now) medium.now.name ≡ Some medium.now }
        requires left { medium.now.changed ≡ false → self.now.next < NUMBER_LIMIT }
        ensures { IfOk result (λ world. world ≡ record self.now {
          next = if medium.now.changed then self.now.next else self.now.next + 1;
          media = change_by medium_name medium.now.name (written_medium (seen self.now) disk) self.now.media;
        }) }
    {
        let new = self.written_medium(alloc, medium, disk)?;
        Ok(World {
            seed: self.seed,
            next: self.next_after(medium),
            inner: self.inner,
            media: self.written_media(alloc, &new)?,
            machines: self.machines.copied(alloc)?,
            shelf: self.shelf.copied(alloc)?,
        })
    }

    // The world after a slot's own disk was written.
    fn write_own(
        &self,
        alloc: Global,
        machine: &WorldMachine,
        port: u8,
        disk: &Flat,
    ) -> Result<World, NoMemory>
        requires { self.now.inner ≤ NUMBER_LIMIT }
        ensures world { IfOk result (λ world. seen world ≡ with_machine (seen self.now)
            (record machine.now { slots = with_slot port (λ t. record t { own = Some disk.now }) machine.now.slots }) 0) }
        ensures shelf { IfOk result (λ world. world.shelf ≡ self.now.shelf) }
    {
        let slots = slots_with(alloc, machine.slots.as_slice(), port, disk)?;
        self.with_slots_of(alloc, machine, slots, 0)
    }

    // The world after the disk of a slot was replaced.
    fn written(
        &self,
        alloc: Global,
        machine: &WorldMachine,
        slot: &WorldSlot,
        medium: &WorldMedium,
        disk: Flat,
    ) -> Result<World, NoMemory>
        requires sound { IsSound (seen self.now) }
        requires found { medium_of (seen self.now) medium.now.name ≡ Some medium.now }
        requires left { (is_first_write medium.now slot.now && is_spent (seen self.now)) ≡ false }
        ensures world { IfOk result (λ world. seen world ≡ written (seen self.now) machine.now slot.now medium.now disk) }
        ensures shelf { IfOk result (λ world. world.shelf ≡ self.now.shelf) }
    {
        match &slot.own {
            None => self.write_medium(alloc, medium, disk),
            Some(_) => self.write_own(alloc, machine, slot.port, &disk),
        }
    }

    fn write_refusal(
        &self,
        machine: &WorldMachine,
        slot: &WorldSlot,
        medium: &WorldMedium,
        lba: u64,
        count: u64,
    ) -> Option<Refusal>
        ensures { result ≡ first_refusal (write_checks (seen self.now) machine.now slot.now medium.now lba count) }
    {
        if !machine.running {
            return Some(Refusal::NotRunning);
        }
        if self.is_past(slot, lba, count) {
            return Some(Refusal::OutOfRange);
        }
        if !writable(medium.mode) {
            return Some(Refusal::WriteProtected);
        }
        if slot.own.is_none() && !medium.changed && self.is_spent() {
            return Some(Refusal::IdsSpent);
        }
        None
    }

    // Writes sectors to a slot where no check refuses it.
    fn write_allowed(
        &self,
        alloc: Global,
        machine: &WorldMachine,
        slot: &WorldSlot,
        medium: &WorldMedium,
        lba: u64,
        sectors: &[Sector],
    ) -> Stepped
        requires sound { IsSound (seen self.now) }
        requires found { medium_of (seen self.now) medium.now.name ≡ Some medium.now }
        requires within { lba + length sectors.now ≤ length (disk_in (seen self.now) slot.now) }
        requires left { (is_first_write medium.now slot.now && is_spent (seen self.now)) ≡ false }
        ensures outcome { IfOk result (λ r. outcome_of r ≡ (
          answers.Done,
          written (seen self.now) machine.now slot.now medium.now (with_sectors (disk_in (seen self.now) slot.now) lba sectors.now),
        )) }
        ensures shelf { IfOk result (λ r. r.0.shelf ≡ self.now.shelf) }
    {
        let mut disk = self.disk_in(alloc, slot)?;
        replace_sectors(&mut disk, lba, sectors);
        let world = self.written(alloc, machine, slot, medium, disk)?;
        Ok((world, Answer::Done))
    }

    // Writes sectors to a slot of a medium that was found.
    fn write_slot(
        &self,
        alloc: Global,
        machine: &WorldMachine,
        slot: &WorldSlot,
        medium: &WorldMedium,
        lba: u64,
        sectors: &[Sector],
    ) -> Stepped
        requires sound { IsSound (seen self.now) }
        requires found { medium_of (seen self.now) slot.now.medium ≡ Some medium.now }
        ensures outcome { IfOk result (λ r. outcome_of r ≡ unless_refused (seen self.now)
            (write_checks (seen self.now) machine.now slot.now medium.now lba (length sectors.now)) (
              answers.Done,
              written (seen self.now) machine.now slot.now medium.now (with_sectors (disk_in (seen self.now) slot.now) lba sectors.now),
            )) }
        ensures shelf { IfOk result (λ r. r.0.shelf ≡ self.now.shelf) }
    {
        match self.write_refusal(machine, slot, medium, lba, sectors.len() as u64) {
            Some(refusal) => self.refused(alloc, refusal),
            None => self.write_allowed(alloc, machine, slot, medium, lba, sectors),
        }
    }

    fn write_sectors(
        &self,
        alloc: Global,
        vm: &[u8],
        port: u8,
        lba: u64,
        sectors: &[Sector],
    ) -> Stepped
        requires { IsSound (seen self.now) }
        ensures outcome { IfOk result (λ r. outcome_of r ≡ write_sectors (seen self.now) vm.now port lba sectors.now) }
        ensures shelf { IfOk result (λ r. r.0.shelf ≡ self.now.shelf) }
    {
        let Some(machine) = self.machine(vm) else {
            return self.refused(alloc, Refusal::NoSuchMachine);
        };
        let Some(slot) = slot_at(machine.slots.as_slice(), port) else {
            return self.refused(alloc, Refusal::NoSuchSlot);
        };
        let Some(medium) = self.medium(slot.medium.bytes()) else {
            return self.refused(alloc, Refusal::NoSuchMedium);
        };
        self.write_slot(alloc, machine, slot, medium, lba, sectors)
    }

    pub(crate) fn write(
        &self,
        alloc: Global,
        vm: &[u8],
        port: u8,
        lba: u64,
        bytes: &[u8],
    ) -> Stepped
        requires { IsSound (seen self.now) }
        ensures outcome { IfOk result (λ r. outcome_of r ≡ write_sectors (seen self.now) vm.now port lba (sectors_in bytes.now)) }
        ensures shelf { IfOk result (λ r. r.0.shelf ≡ self.now.shelf) }
    {
        let sectors = sectors_in(alloc, bytes)?;
        self.write_sectors(alloc, vm, port, lba, sectors.as_slice())
    }

    pub(crate) fn fill(
        &self,
        alloc: Global,
        vm: &[u8],
        port: u8,
        lba: u64,
        count: u32,
        byte: u8,
    ) -> Stepped
        requires { IsSound (seen self.now) }
        ensures outcome { IfOk result (λ r. outcome_of r ≡ write_sectors (seen self.now) vm.now port lba (filled count byte)) }
        ensures shelf { IfOk result (λ r. r.0.shelf ≡ self.now.shelf) }
    {
        let sectors = filled(alloc, count, byte)?;
        self.write_sectors(alloc, vm, port, lba, sectors.as_slice())
    }
}
