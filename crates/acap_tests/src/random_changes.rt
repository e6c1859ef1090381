//! Clients follow random changes of a store with inheritance and lists of rights.
ghost use Rattle.std.specs.Prelude.{◌≡◌, ◌<◌};

use crate::context_client::Client;
use crate::dice::{Dice, join};
use crate::world::World;
use crate::wrong::Wrong;
use acap_commands::{Said, Tolds};
use acap_entries::{Memory, Steps};
use acap_notices::ToldRef;
use std::alloc::Global;
use std::marker::Brand;
use std::sync::ledger::{Blank, Ledger};

/// What stands before the first random change.
static FIRST: [(u8, &[u8]); 7] = [
    (1, b"T STORE (\"/option/user/joe/a/m\" \"k\" \"1\")"),
    (1, b"T STORE (\"/option/user/joe/a/x/m\" \"k\" \"2\")"),
    (1, b"T STORE (\"/option/user/joe/b/m\" \"k\" \"1\")"),
    (3, b"T STORE (\"/option/user/ann/a/m\" \"k\" \"3\")"),
    (1, b"T SETACL (\"/option/user/joe/a/\") \"ann\" \"xrwi\""),
    (3, b"T SETACL (\"/option/user/ann/a/\") \"joe\" \"xrwi\""),
    (
        1,
        b"T STORE (\"/option/user/joe/b/\" \"dataset.inherit\" \"/option/user/joe/a/\")",
    ),
];

/// A machine, its clients, and what is sent next.
#[derive(Drop)]
struct Trial {
    world: World,
    dice: Dice,
    clients: Vec<Client>,
}

// How many moments are sent.
fn count_moments(tolds: &Tolds) -> usize {
    let mut count = 0usize;
    for told in tolds.iter() {
        if matches!(told, ToldRef::Upto(_, _)) {
            count = count.saturating_add(1);
        }
    }
    count
}

impl Trial {
    fn new(world: World, seed: u64) -> Trial {
        let clients = Vec::new(world.alloc);
        Trial {
            world,
            dice: Dice::new(seed),
            clients,
        }
    }

    // Where it stands, on an equal machine.
    fn copy(&self) -> Result<Trial, Wrong> {
        let mut trial = Trial::new(self.world.copy()?, 0);
        for client in &self.clients {
            let client = client.copy(self.world.alloc)?;
            trial.clients.push(client).map_err(|_| Wrong::Memory)?;
        }
        Ok(trial)
    }

    // Three seats of two users, and the first datasets.
    fn begin<L: Ledger>(&mut self, steps: &mut Steps<L>) -> Result<(), Wrong> {
        for number in 1..4u8 {
            let name: &[u8] = if number < 3 { b"joe" } else { b"ann" };
            let _said = self.world.enter(number, name, steps)?;
        }
        for (number, line) in &FIRST {
            match self.world.send(*number, *line, steps)? {
                Said::Done(_) => {}
                _ => return Err(Wrong::Answer),
            }
        }
        Ok(())
    }

    // A client makes a random context of a name, unless the dataset doesn't exist.
    fn open<L: Ledger>(&mut self, seat: u8, name: u8, steps: &mut Steps<L>) -> Result<(), Wrong> {
        let quest = self.dice.quest(self.world.alloc)?;
        if let Some(client) = Client::open(&mut self.world, seat, name, quest, steps)? {
            self.clients.push(client).map_err(|_| Wrong::Memory)?;
        }
        Ok(())
    }

    // All clients make theirs: at each of three seats two, "d" and "e".
    fn open_all<L: Ledger>(&mut self, steps: &mut Steps<L>) -> Result<(), Wrong> {
        for number in 0..6u8 {
            self.open(number % 3 + 1, b'd' + number / 3, steps)?;
        }
        Ok(())
    }

    // A seat's clients hear what is sent there, with `moments` moments.
    fn hear<L: Ledger>(
        &mut self,
        seat: u8,
        tolds: &Tolds,
        moments: usize,
        steps: &mut Steps<L>,
    ) -> Result<(), Wrong> {
        if count_moments(tolds) != moments {
            return Err(Wrong::Moments);
        }
        for client in self.clients.iter_mut() {
            if client.seat == seat {
                client.hear(tolds, &mut self.world, steps)?;
            }
        }
        Ok(())
    }

    // A seat is sent what waits.
    fn drain<L: Ledger>(&mut self, seat: u8, steps: &mut Steps<L>) -> Result<(), Wrong> {
        let tolds = self.world.drain(seat, steps)?;
        self.hear(seat, &tolds, 0, steps)
    }

    // The line that asks for what waits of a seat's contexts, and how many these are.
    fn update_line(&self, seat: u8) -> Result<(Vec<u8>, usize), Memory> {
        let mut line = Vec::new(self.world.alloc);
        line.extend_from_slice(b"T UPDATECONTEXT")?;
        let mut count = 0usize;
        for client in &self.clients {
            if client.seat == seat {
                line.extend_from_slice(&[b' ', b'"', client.name, b'"'])?;
                count = count.saturating_add(1);
            }
        }
        Ok((line, count))
    }

    // A seat asks for what waits.
    fn update<L: Ledger>(&mut self, seat: u8, steps: &mut Steps<L>) -> Result<(), Wrong> {
        let (line, count) = self.update_line(seat)?;
        if count == 0 {
            return Ok(());
        }
        let Said::Updated(tolds) = self.world.send(seat, line.as_slice(), steps)? else {
            return Err(Wrong::Answer);
        };
        self.hear(seat, &tolds, count, steps)
    }

    // A random change. Whether it isn't refused.
    fn change<L: Ledger>(&mut self, steps: &mut Steps<L>) -> Result<bool, Wrong> {
        let line = self.dice.command(self.world.alloc)?;
        let seat = if self.dice.under(3) == 0 { 3 } else { 1 };
        match self.world.send(seat, line.as_slice(), steps)? {
            Said::Done(_) => Ok(true),
            Said::Refused(_) => Ok(false),
            _ => Err(Wrong::Answer),
        }
    }

    // Each seat is sent what waits, on a copy, and some of them are sent here.
    fn tell<L: Ledger>(&mut self, steps: &mut Steps<L>) -> Result<(), Wrong> {
        let mut ahead = self.copy()?;
        for seat in 1..4u8 {
            ahead.drain(seat, steps)?;
            match self.dice.under(12) {
                0 => self.drain(seat, steps)?,
                1 => self.update(seat, steps)?,
                _ => {}
            }
        }
        Ok(())
    }

    // A random client gives up its context and makes another one.
    fn renew<L: Ledger>(&mut self, steps: &mut Steps<L>) -> Result<(), Wrong> {
        let at = self.dice.under(self.clients.len().max(1));
        if at >= self.clients.len() {
            return Ok(());
        }
        let client = self.clients.swap_remove(at);
        let name = [client.name];
        let line = join(
            self.world.alloc,
            &[b"T FREECONTEXT \"", name.as_slice(), b"\""],
        )?;
        match self.world.send(client.seat, line.as_slice(), steps)? {
            Said::Done(_) => self.open(client.seat, client.name, steps),
            _ => Err(Wrong::Answer),
        }
    }

    // Makes `changes` changes, one after the other.
    fn follow<L: Ledger>(&mut self, changes: usize, steps: &mut Steps<L>) -> Result<(), Wrong> {
        self.begin(steps)?;
        self.open_all(steps)?;
        let mut done = 0usize;
        for _ in 0..10_000usize {
            if !self.change(steps)? {
                continue;
            }
            done = done.saturating_add(1);
            self.tell(steps)?;
            if self.dice.under(16) == 0 {
                self.renew(steps)?;
            }
            if done >= changes {
                return Ok(());
            }
        }
        Err(Wrong::Refused)
    }
}

// What goes wrong in `changes` changes by a seed, and what was sent until then.
fn trouble<L: Ledger>(
    alloc: Global,
    blank: Blank,
    seed: u64,
    changes: usize,
) -> Option<(Wrong, Vec<u8>)>
    requires name { blank.name ≡ L.name }
    requires parts { blank.parts ≡ L.parts }
    requires some { 0 < L.parts }
{
    let mut steps = Steps::<L>::new(blank);
    let Ok(world) = World::new(alloc) else {
        return Some((Wrong::Memory, Vec::new(alloc)));
    };
    let mut trial = Trial::new(world, seed);
    match trial.follow(changes, &mut steps) {
        Ok(()) => None,
        Err(wrong) => Some((wrong, trial.world.into_sent())),
    }
}

/// The changes that are made by each seed. With checked memory all of them take some minutes.
const CHANGES: usize = 50;

#[test]
fn follows_changes(rt: HostRuntime) {
    for seed in 1..41u64 {
        if let Some((wrong, sent)) = trouble::<Brand>(rt.alloc(), Blank::new(1), seed, CHANGES) {
            let text = String::from_utf8(sent).unwrap_or(String::new(rt.alloc()));
            let _printed = println!(rt; "seed {seed}\n{text}");
            assert_eq!(rt; Some(wrong), None);
        }
    }
}
