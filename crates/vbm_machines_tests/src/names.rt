//! A tree as a plain list of names.

ghost use Rattle.vbm_machines.specs.Snapshots.{HasPlaces};

use crate::trials::Trial;
use std::alloc::Global;
use std::process::Abort;
use std::test::Fail;
use vbm_machines::dependents;

/// A snapshot's number, whose digits are its name, and that of its parent.
#[derive(Clone, Copy)]
pub(crate) struct Node {
    pub(crate) number: usize,
    pub(crate) parent: Option<usize>,
}

/// The name of a number.
pub(crate) fn digits(n: usize) -> [u8; 4] {
    [
        b'0' + (n / 1000 % 10) as u8,
        b'0' + (n / 100 % 10) as u8,
        b'0' + (n / 10 % 10) as u8,
        b'0' + (n % 10) as u8,
    ]
}

/// Snapshots in the order in which they were taken, and the number of the current one.
#[derive(Drop)]
pub(crate) struct Nodes {
    pub(crate) all: Vec<Node>,
    pub(crate) current: Option<usize>,
}

impl Nodes {
    /// Whether more than one depends on a snapshot.
    pub(crate) fn is_forked(&self, number: usize) -> bool {
        self.dependents(number) > 1
    }

    fn dependents(&self, number: usize) -> usize {
        let children = self
            .all
            .iter()
            .filter(|node| node.parent == Some(number))
            .count();
        children.saturating_add(usize::from(self.current == Some(number)))
    }

    pub(crate) fn take(&mut self, number: usize) -> Result<(), Fail> {
        let parent = self.current;
        self.all.push(Node { number, parent })?;
        self.current = Some(number);
        Ok(())
    }

    pub(crate) fn remove(&mut self, alloc: Global, gone: Node) -> Result<(), Fail> {
        let mut left = Vec::new(alloc);
        for node in &self.all {
            let adopted = node.parent == Some(gone.number);
            let parent = if adopted { gone.parent } else { node.parent };
            if node.number != gone.number {
                left.push(Node { parent, ..*node })?;
            }
        }
        self.all = left;
        if self.current == Some(gone.number) {
            self.current = gone.parent;
        }
        Ok(())
    }

    /// Whether a trial has a snapshot as it is here.
    fn check_node(&self, rt: &impl Abort, trial: &Trial, node: Node)
        requires { HasPlaces trial.now.machine }
    {
        let at = trial.place(rt, &digits(node.number));
        match node.parent {
            Some(number) => assert!(rt; trial.parent(at) == digits(number).as_slice()),
            None => assert!(rt; trial.parent(at) == b"-".as_slice()),
        }
        assert_eq!(rt;
            dependents(&trial.machine, at) as usize,
            self.dependents(node.number)
        );
    }

    /// Whether a trial has these snapshots.
    pub(crate) fn check(&self, rt: &impl Abort, trial: &Trial)
        requires { HasPlaces trial.now.machine }
    {
        assert_eq!(rt; trial.machine.snapshots.len(), self.all.len());
        for node in &self.all {
            self.check_node(rt, trial, *node);
        }
        let current = trial.name(trial.machine.current);
        match self.current {
            Some(number) => assert!(rt; current == digits(number).as_slice()),
            None => assert!(rt; current == b"-".as_slice()),
        }
    }
}
