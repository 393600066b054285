//! Trees of snapshots, step by step, and beside a plain list of names.

ghost use Rattle.std.specs.Prelude.{◌≡◌, [], IfOk};
ghost use Rattle.vbm_named.specs.Names.{Rises};
ghost use Rattle.vbm_machines.specs.Snapshots.{name_of_snapshot, HasPlaces};

use crate::names::{Nodes, digits};
use crate::trials::{
    MODES, Trial, are_below, are_listed, are_small, held, is_new, machine, media, numbers,
};
use std::alloc::Global;
use std::process::Abort;
use std::test::Fail;
use vbm_machines::{
    Held, Machine, Machines, Renumbering, Slots, Snapshot, Snapshots, attach, dependents, detach,
    holders_of, numbers_to_reset, renumbered, reset,
};
use vbm_modes::Mode;
use vbm_ports::{Copied, Text};
use vbm_world::PORT_LIMIT;

/// The tree: the names of the snapshots and of their parents, and that of the current one.
fn check(rt: &impl Abort, trial: &Trial, want: &[(&[u8], &[u8])], current: &[u8])
    requires { HasPlaces trial.now.machine }
{
    assert_eq!(rt; trial.machine.snapshots.len(), want.len());
    for (name, parent) in want {
        let at = trial.place(rt, name);
        assert!(rt; trial.parent(at) == *parent);
    }
    assert!(rt; trial.name(trial.machine.current) == current);
}

/// The images that a snapshot keeps, and the new ones of the slots.
#[test]
fn slots_are_kept_and_given_back(rt: HostRuntime) -> Result<(), Fail> {
    let alloc = rt.alloc();
    let mut trial = Trial::new(alloc)?;
    assert_eq!(rt;
        held(&rt, &trial.machine.slots),
        [Held::Direct, Held::Direct, Held::Own(0)]
    );
    trial.take(&rt, alloc, b"S1")?;
    assert_eq!(rt;
        held(&rt, &trial.machine.slots),
        [Held::Own(1), Held::Direct, Held::Own(2)]
    );
    let at = trial.place(&rt, b"S1");
    let places = &trial.machine.snapshots.get(at as usize).slots;
    assert_eq!(rt; held(&rt, places), [Held::Base, Held::Direct, Held::Own(0)]);
    trial.restore(alloc, at)?;
    assert_eq!(rt;
        held(&rt, &trial.machine.slots),
        [Held::Own(3), Held::Direct, Held::Own(4)]
    );
    assert!(rt; are_small(trial.machine.snapshots.as_slice()));
    assert!(rt; trial.machine.slots.len() <= PORT_LIMIT as usize);
    assert_eq!(rt; holders_of(&trial.machine, 2), 2);
    Ok(())
}

/// A tree that grows and shrinks.
#[test]
fn a_tree(rt: HostRuntime) -> Result<(), Fail> {
    let alloc = rt.alloc();
    let mut trial = Trial::new(alloc)?;
    trial.take(&rt, alloc, b"S1")?;
    trial.take(&rt, alloc, b"S2")?;
    check(&rt, &trial, &[(b"S1", b"-"), (b"S2", b"S1")], b"S2");
    trial.restore(alloc, trial.place(&rt, b"S1"))?;
    trial.take(&rt, alloc, b"S3")?;
    check(
        &rt,
        &trial,
        &[(b"S1", b"-"), (b"S2", b"S1"), (b"S3", b"S1")],
        b"S3",
    );
    assert_eq!(rt; dependents(&trial.machine, trial.place(&rt, b"S1")), 2);
    trial.remove(&rt, alloc, trial.place(&rt, b"S3"))?;
    check(&rt, &trial, &[(b"S1", b"-"), (b"S2", b"S1")], b"S1");
    assert_eq!(rt; dependents(&trial.machine, trial.place(&rt, b"S1")), 2);
    // A snapshot whose name comes first moves the others on.
    trial.take(&rt, alloc, b"A")?;
    check(
        &rt,
        &trial,
        &[(b"A", b"S1"), (b"S1", b"-"), (b"S2", b"S1")],
        b"A",
    );
    trial.take(&rt, alloc, b"S15")?;
    check(
        &rt,
        &trial,
        &[(b"A", b"S1"), (b"S1", b"-"), (b"S15", b"A"), (b"S2", b"S1")],
        b"S15",
    );
    // The child of what goes gets its parent.
    trial.remove(&rt, alloc, trial.place(&rt, b"A"))?;
    check(
        &rt,
        &trial,
        &[(b"S1", b"-"), (b"S15", b"S1"), (b"S2", b"S1")],
        b"S15",
    );
    trial.remove(&rt, alloc, trial.place(&rt, b"S2"))?;
    // The root goes, and its child is the root.
    trial.remove(&rt, alloc, trial.place(&rt, b"S1"))?;
    check(&rt, &trial, &[(b"S15", b"-")], b"S15");
    trial.remove(&rt, alloc, trial.place(&rt, b"S15"))?;
    check(&rt, &trial, &[], b"-");
    Ok(())
}

/// One of the edits, by a random number, of a tree and of the list.
fn edit(
    rt: &impl Abort,
    alloc: Global,
    trial: &mut Trial,
    nodes: &mut Nodes,
    name: usize,
    draw: usize,
) -> Result<(), Fail>
    requires { HasPlaces trial.old.machine }
    ensures { HasPlaces trial.new.machine }
{
    if nodes.all.is_empty() || nodes.all.len() < 40 && draw % 3 != 0 {
        trial.take(rt, alloc, &digits(name))?;
        return nodes.take(name);
    }
    let node = nodes.all[draw / 3 % nodes.all.len()];
    let at = trial.place(rt, &digits(node.number));
    if draw % 2 == 0 || nodes.is_forked(node.number) {
        nodes.current = Some(node.number);
        trial.restore(alloc, at)
    } else {
        nodes.remove(alloc, node)?;
        trial.remove(rt, alloc, at)
    }
}

#[test]
fn a_random_tree_beside_a_list(rt: HostRuntime) -> Result<(), Fail> {
    let alloc = rt.alloc();
    let mut trial = Trial::new(alloc)?;
    let mut nodes = Nodes {
        all: Vec::new(alloc),
        current: None,
    };
    let mut random: u64 = 12345;
    let mut most = 0;
    for turn in 0..400 {
        random = random
            .wrapping_mul(6364136223846793005)
            .wrapping_add(1442695040888963407);
        // Names come in no order.
        let name = turn * 7919 % 10000;
        edit(
            &rt,
            alloc,
            &mut trial,
            &mut nodes,
            name,
            (random >> 33) as usize,
        )?;
        nodes.check(&rt, &trial);
        most = most.max(nodes.all.len());
    }
    assert_eq!(rt; most, 40);
    Ok(())
}

/// So many snapshots, each the child of the one before, with places like these slots.
fn line(rt: &impl Abort, alloc: Global, slots: &Slots, count: u32) -> Result<Snapshots, Fail>
    ensures { IfOk result (λ snapshots. Rises name_of_snapshot snapshots) }
{
    let mut snapshots = Snapshots::new(alloc);
    let mut parent = None;
    for i in 0..count {
        let name = Text::new(alloc, &digits(i as usize))?;
        assert!(rt; is_new(&snapshots, name.bytes()));
        let slots = slots.copied(alloc)?;
        snapshots.insert(Snapshot {
            name,
            parent,
            slots,
        })?;
        parent = Some(i);
    }
    Ok(snapshots)
}

/// A trial of a machine with 4095 snapshots, each the child of the one before.
fn trial_of_most(rt: &impl Abort, alloc: Global) -> Result<Trial, Fail>
    ensures { IfOk result (λ trial. HasPlaces trial.machine) }
{
    let mut machine = machine(alloc)?;
    let snapshots = line(rt, alloc, &machine.slots, 4095)?;
    assert_eq!(rt; snapshots.len(), 4095);
    assert!(rt; are_below(snapshots.as_slice(), 4095));
    machine.snapshots = snapshots;
    machine.current = Some(4094);
    Ok(Trial { machine, next: 1 })
}

#[test]
fn the_most_snapshots(rt: HostRuntime) -> Result<(), Fail> {
    let alloc = rt.alloc();
    let mut trial = trial_of_most(&rt, alloc)?;
    trial.restore(alloc, trial.place(&rt, b"2000"))?;
    trial.take(&rt, alloc, b"2000a")?;
    assert_eq!(rt; trial.machine.snapshots.len(), 4096);
    assert_eq!(rt; trial.place(&rt, b"2000a"), 2001);
    assert!(rt; trial.parent(2001) == b"2000".as_slice());
    assert!(rt; trial.parent(2002) == b"2000".as_slice());
    assert!(rt; trial.parent(4095) == b"4093".as_slice());
    assert!(rt; trial.name(trial.machine.current) == b"2000a".as_slice());
    trial.remove(&rt, alloc, 2001)?;
    assert!(rt; trial.name(trial.machine.current) == b"2000".as_slice());
    trial.remove(&rt, alloc, trial.place(&rt, b"1999"))?;
    assert_eq!(rt; trial.machine.snapshots.len(), 4094);
    assert_eq!(rt; trial.place(&rt, b"2000"), 1999);
    assert!(rt; trial.parent(1999) == b"1998".as_slice());
    assert!(rt; trial.parent(4093) == b"4093".as_slice());
    assert!(rt; trial.name(trial.machine.current) == b"2000".as_slice());
    Ok(())
}

/// The media of a machine's slots in a list of media that changed so.
fn media_after(
    rt: &impl Abort,
    alloc: Global,
    renumbering: Renumbering,
    machine: Machine,
) -> Result<[u32; 3], Fail>
    requires { machine.snapshots ≡ [] }
{
    assert!(rt; are_listed(machine.slots.as_slice(), u32::MAX as usize));
    let mut machines = Machines::new(alloc);
    machines.push(machine)?;
    let after = renumbered(alloc, renumbering, &machines)?;
    Ok(media(rt, &after.get(0).slots))
}

#[test]
fn media_come_and_go(rt: HostRuntime) -> Result<(), Fail> {
    let alloc = rt.alloc();
    let entered = media_after(&rt, alloc, Renumbering::Entered(1), machine(alloc)?)?;
    assert_eq!(rt; entered, [0, 2, 3]);
    let mut one_less = machine(alloc)?;
    detach(alloc, &mut one_less, 1)?;
    assert!(rt; are_small(one_less.snapshots.as_slice()));
    assert!(rt; one_less.slots.len() <= PORT_LIMIT as usize);
    assert_eq!(rt; holders_of(&one_less, 1), 0);
    attach(alloc, &mut one_less, 3, 3, Mode::Normal, 1)?;
    let left = media_after(&rt, alloc, Renumbering::Left(1), one_less)?;
    assert_eq!(rt; left, [0, 1, 2]);
    Ok(())
}

#[test]
fn starts(rt: HostRuntime) -> Result<(), Fail> {
    let alloc = rt.alloc();
    let mut machine = machine(alloc)?;
    assert!(rt; are_listed(machine.slots.as_slice(), MODES.len()));
    let fresh = numbers(alloc, 7, numbers_to_reset(&machine, &MODES))?;
    reset(alloc, &mut machine, &MODES, &fresh)?;
    assert_eq!(rt;
        held(&rt, &machine.slots),
        [Held::Direct, Held::Direct, Held::Own(7)]
    );
    Ok(())
}
