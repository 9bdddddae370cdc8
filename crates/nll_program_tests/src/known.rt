//! The program over texts and streams of which all is known.
ghost use Rattle.std.specs.Prelude.{◌≡◌, ◌⊎◌, ◌<◌, ◌≤◌, ◌++◌, ℕ};
ghost use Rattle.std.specs.Prelude.{List, Some, map, length, string_bytes};
ghost use Rattle.nll_report.specs.declared.messages.Refusal.{Refusal};
ghost use Rattle.nll_report.specs.Refusal.{refusal_line, status_of};
ghost use Rattle.nll_report.specs.Run.{IsRunRefused, IsRun};
ghost use Rattle.nll_program_tests.specs.Known.{bytes_of, is_elsewhere, is_sheet, room_of};

use crate::page::Page;
use nll_report::{Sink, Texts, Unread, Unwritten, drive};
use std::alloc::Global;
use std::sync::Wait;
use std::thread::Threads;

/// One text at one path.
#[derive(Drop)]
pub struct Sheet<'a> {
    pub alloc: Global,
    pub path: &'a str,
    pub text: &'a [u8],
}

impl Texts for Sheet<'_> {
    ghost holds = { is_sheet };

    ghost lacks = { is_elsewhere };

    fn get(&self, path: &str) -> Result<Vec<u8>, Unread> {
        if path != self.path {
            return Err(Unread::Cannot);
        }
        match self.text.to_vec(self.alloc) {
            Ok(text) => Ok(text),
            Err(_) => Err(Unread::Memory),
        }
    }
}

impl Sink for Page {
    ghost contents = { λ page. Some (bytes_of page) };

    ghost room = { λ page. Some (room_of page) };

    fn put(&mut self, bytes: &[u8]) -> Result<(), Unwritten> {
        if bytes.len() > 1024 - self.length {
            return Err(Unwritten { written: 0 });
        }
        self.bytes[self.length..self.length + bytes.len()].copy_from_slice(bytes);
        self.length += bytes.len();
        Ok(())
    }
}

/// Runs the program on a sheet and two pages.
pub fn on_pages<R: AllocGlobal + Threads + Wait + Sync>(
    rt: &R,
    words: &[String],
    sheet: &Sheet<'_>,
    out: &mut Page,
    err: &mut Page,
) -> u8
    ensures printed { result < 2 → (bytes : List ℕ) × (bytes_of out.new ≡ bytes_of out.old ++ bytes)
        × IsRun (is_sheet sheet.now) (map string_bytes words.now) bytes result }
    ensures told { 2 ≤ result → (refusal : Refusal) × (status_of refusal ≡ result)
        × (IsRunRefused (is_sheet sheet.now) (is_elsewhere sheet.now)
        (map string_bytes words.now) refusal ⊎ (refusal ≡ Refusal.CannotWrite))
        × ((bytes_of err.new ≡ bytes_of err.old ++ refusal_line refusal)
        ⊎ (room_of err.old < length (refusal_line refusal))) }
{
    drive(rt, words, sheet, out, err)
}
