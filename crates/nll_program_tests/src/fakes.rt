//! Words, texts and writers for the tests.
ghost use Rattle.std.specs.Prelude.{◌≡◌, IfOk};
ghost use Rattle.nll_report.specs.Texts.{holds_anything, lacks_anything};

use super::notes::say;
use nll_report::{Texts, Unread};
use std::alloc::Global;
use std::cell::RefCell;
use std::io;
use std::io::{ErrorKind, Write};
use std::process::Abort;

/// The words between the bars of `text`, and none of an empty text.
pub fn words_of(rt: &impl Abort, alloc: Global, text: &str) -> Vec<String> {
    let mut words = Vec::new(alloc);
    if !text.is_empty() {
        for word in text.split('|') {
            let word = String::from_str(alloc, word).expect(rt, "memory");
            words.push(word).expect(rt, "memory");
        }
    }
    words
}

const CHAIN: &[u8] = b"nll-facts 1
points 3
region '1
region '2
next 0 1
next 1 2
return 2
base '1 1
base '1 2
constraint '2 '1 1
end
";

const FAULT: &[u8] = b"nll-facts 1
points 2
universal 'a
universal 'b
next 0 1
return 1
constraint 'a 'b 0
end
";

const HEALED: &[u8] = b"nll-facts 1
points 2
universal 'a
universal 'b
outlives 'a 'b
next 0 1
return 1
constraint 'a 'b 0
end
";

// Two regions that ask each other. Dealt in turns among two owners, '1 is the second one's.
const CIRCLE: &[u8] = b"nll-facts 1
points 2
region '1
region '2
next 0 1
return 1
base '1 0
base '2 1
constraint '2 '1 0
constraint '1 '2 0
end
";

// The texts by their paths.
const TEXTS: &[(&str, &[u8])] = &[
    ("chain", CHAIN),
    ("fault", FAULT),
    ("healed", HEALED),
    ("circle", CIRCLE),
    ("empty", b""),
    ("utf", b"nll-facts 1\npoints 1\n# \xc3\n\xa9\nend\n"),
    ("syntax", b"nll-facts 1\n\npoints one\n"),
    (
        "unknown",
        b"nll-facts 1\npoints 1\noutlives 'static 'z\nend\n",
    ),
    (
        "duplicate",
        b"nll-facts 1\npoints 1\nuniversal 'a\nregion 'a\nend\n",
    ),
    ("range", b"nll-facts 1\npoints 1\nreturn 0\nnext 0 1\nend\n"),
    (
        "points",
        b"nll-facts 1\n# One too many.\npoints 1048577\nend\n",
    ),
    ("end", b"nll-facts 1\npoints 1\nreturn 0\n# end\n"),
    // Cut files. The chain has three regions.
    ("one", b"nll-cut 1\n0\n0\n0\n"),
    ("two", b"nll-cut 1\n# 'static\n1\n\n0\n1"),
    ("stranger", b"nll-cut 1\n0\n16\n0\n"),
    ("strangers", b"nll-cut 1\n16\n0\n17\n"),
    ("short", b"nll-cut 1\n0\n1\n"),
    ("long", b"nll-cut 1\n0\n1\n0\n99\n"),
    ("none", b"nll-cut 1\n"),
    ("faulty", b"nll-cut 1\n0\none\n"),
    ("wide", b"nll-cut 1\n65536\n"),
    // Schedules.
    ("still", b"nll-schedule 1\n"),
    ("first", b"nll-schedule 1\n# the first owner\nload 0"),
    ("second", b"nll-schedule 1\n\nload 0\nload 1\n"),
    ("other", b"nll-schedule 2\nload 0\n"),
    ("vague", b"nll-schedule 1\nload 0\nload\n"),
    ("signed", b"nll-schedule 1\nload -1\nload 2\n"),
    ("latin", b"nll-schedule 1\n# \xe9\nload 0\n"),
];

/// The texts of the table above; the text `large` wants memory.
#[derive(Drop)]
pub struct Shelf {
    pub alloc: Global,
}

impl Texts for Shelf {
    ghost holds = { λ _. holds_anything };

    ghost lacks = { λ _. lacks_anything };

    fn get(&self, path: &str) -> Result<Vec<u8>, Unread> {
        for (name, text) in TEXTS {
            if *name == path {
                return text.to_vec(self.alloc).or(Err(Unread::Memory));
            }
        }
        Err(if path == "large" {
            Unread::Memory
        } else {
            Unread::Cannot
        })
    }
}

/// The texts of the shelf, and two more, at the paths `sheet` and `list`.
#[derive(Drop)]
pub struct Desk<'a> {
    pub shelf: Shelf,
    pub text: &'a [u8],
    pub list: &'a [u8],
}

impl Texts for Desk<'_> {
    ghost holds = { λ _. holds_anything };

    ghost lacks = { λ _. lacks_anything };

    fn get(&self, path: &str) -> Result<Vec<u8>, Unread> {
        if path == "sheet" {
            return self.text.to_vec(self.shelf.alloc).or(Err(Unread::Memory));
        }
        if path == "list" {
            return self.list.to_vec(self.shelf.alloc).or(Err(Unread::Memory));
        }
        self.shelf.get(path)
    }
}

/// The texts of the shelf, and the paths that were asked for, in order, each after a blank.
#[derive(Drop)]
pub struct Counter {
    pub shelf: Shelf,
    pub paths: RefCell<String>,
}

impl Texts for Counter {
    ghost holds = { λ _. holds_anything };

    ghost lacks = { λ _. lacks_anything };

    fn get(&self, path: &str) -> Result<Vec<u8>, Unread> {
        if let Ok(mut paths) = self.paths.try_borrow_mut() {
            say(&mut paths, " ");
            say(&mut paths, path);
        }
        self.shelf.get(path)
    }
}

/// What a writer does at one of its calls.
#[derive(Clone, Copy)]
pub enum Fault {
    /// The write fails.
    Fails,
    /// The write takes no byte.
    TakesNone,
    /// A signal interrupts the write.
    IsInterrupted,
    /// The flush fails, whatever its call.
    FailsToFlush,
}

/// A writer that takes three bytes a call, and has a fault at the call that is counted down to 0.
#[derive(Drop)]
pub struct Faulty {
    pub held: Vec<u8>,
    pub calls_before: u32,
    pub fault: Fault,
}

impl Faulty {
    pub fn new(alloc: Global, (fault, calls_before): (Fault, u32)) -> Self {
        Faulty {
            held: Vec::new(alloc),
            calls_before,
            fault,
        }
    }

    fn fails_to_flush(&self) -> bool {
        matches!(self.fault, Fault::FailsToFlush)
    }

    fn fail(&mut self) -> io::Result<usize>
        ensures { IfOk result (λ n. n ≡ 0) }
    {
        match self.fault {
            Fault::Fails => Err(io::Error::from(ErrorKind::StorageFull)),
            Fault::IsInterrupted => {
                self.calls_before = u32::MAX;
                Err(io::Error::from(ErrorKind::Interrupted))
            }
            Fault::TakesNone | Fault::FailsToFlush => Ok(0),
        }
    }
}

impl Write for Faulty {
    fn write(&mut self, buf: &[u8]) -> io::Result<usize> {
        if self.calls_before == 0 && !self.fails_to_flush() {
            return self.fail();
        }
        self.calls_before = self.calls_before.saturating_sub(1);
        let count = buf.len().min(3);
        self.held.extend_from_slice(&buf[..count])?;
        Ok(count)
    }

    fn flush(&mut self) -> io::Result<()> {
        if self.fails_to_flush() {
            return Err(io::Error::from(ErrorKind::StorageFull));
        }
        Ok(())
    }
}
