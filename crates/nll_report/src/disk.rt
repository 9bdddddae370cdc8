//! The files of the system as texts.
ghost use Rattle.std.specs.Prelude.{◌≡◌, ◌≢◌, Err, IfErr, IfOk, IfSome, Ok, take};
ghost use Rattle.std.specs.IoError.{error_kind};
ghost use Rattle.nll_report.specs.Disk.{read_limit};
ghost use Rattle.nll_report.specs.Texts.{holds_anything, lacks_anything};

use crate::error::Unread;
use crate::program::Texts;
use nll_format::MAX_TEXT;
use std::alloc::Global;
use std::fs::OpenFile;
use std::io::{ErrorKind, Read};
use std::rt::Files;
use std::{fs, io};

/// One byte more than the longest text: a text that has it is too long.
const READ_LIMIT: u64 = MAX_TEXT as u64 + 1;

const _: () = prove!(READ_LIMIT == 67_108_865);

/// The files of the runtime.
///
/// # Cost
/// At most 67,108,865 bytes of a file are read, whatever its length; a file whose length is known
/// is read into one allocation (not proved).
#[derive(Drop)]
pub struct Disk<'a, R> {
    rt: &'a R,
}

impl<'a, R> Disk<'a, R> {
    ghost use Rattle.nll_report.specs.Disk.{runtime_of};

    /// The files of this runtime.
    pub fn new(rt: &'a R) -> Self
        ensures { runtime_of result ≡ rt.now }
    {
        Disk { rt }
    }
}

impl<R: Files + AllocGlobal> Texts for Disk<'_, R> {
    // No contract knows which files there are and what they hold: these are the weakest relations,
    // which allow at each path all bytes, and that there is no text.
    ghost holds = { λ _. holds_anything };

    ghost lacks = { λ _. lacks_anything };

    fn get(&self, path: &str) -> Result<Vec<u8>, Unread> {
        given(text_of(self.rt.alloc(), fs::open(self.rt, path)))
    }
}

// The text that was read, or why it isn't given.
fn given(read: io::Result<Vec<u8>>) -> Result<Vec<u8>, Unread>
    ensures text { IfOk read (λ text. result ≡ Ok text) }
    ensures memory { IfErr read (λ error. error_kind error ≡ ErrorKind.OutOfMemory
        → result ≡ Err Unread.Memory) }
    ensures cannot { IfErr read (λ error. error_kind error ≢ ErrorKind.OutOfMemory
        → result ≡ Err Unread.Cannot) }
{
    match read {
        Ok(text) => Ok(text),
        Err(error) if error.kind() == ErrorKind::OutOfMemory => Err(Unread::Memory),
        Err(_) => Err(Unread::Cannot),
    }
}

// The text of a file or a prefix of it, or why it is not open.
fn text_of<F: Read + OpenFile + Drop>(alloc: Global, opened: io::Result<F>) -> io::Result<Vec<u8>>
    ensures text { IfOk opened (λ file. IfOk result (λ text.
        IfSome (F.remaining file) (λ bytes. text.items ≡ take read_limit bytes))) }
    ensures closed { IfErr opened (λ error. result ≡ Err error) }
{
    let file = match opened {
        Ok(file) => file,
        Err(error) => return Err(error),
    };
    let length = match file.metadata() {
        Ok(known) => known.len().min(READ_LIMIT),
        Err(_) => 0,
    };
    // The one byte more shows the end of the file without another allocation.
    let mut text = Vec::with_capacity(alloc, length as usize + 1)?;
    file.take(READ_LIMIT).read_to_end(&mut text)?;
    Ok(text)
}
