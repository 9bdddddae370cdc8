//! The words of the process.
ghost use Rattle.std.specs.Prelude.{◌≡◌, ◌≢◌, ◌⊎◌, Err, IfErr, IfOk, MatchResult, drop};
ghost use Rattle.std.specs.IoError.{error_kind};
ghost use Rattle.std.specs.Vec.Iter.{into_iter_items};

use crate::messages::Refusal;
use std::alloc::Global;
use std::env::Args;
use std::io;
use std::io::ErrorKind;

/// The words after the first of those that the process gave, or why they are lost. Words that are
/// not UTF-8 are refused.
pub(crate) fn words_given(alloc: Global, given: io::Result<Args>) -> Result<Vec<String>, Refusal>
    ensures words { IfOk given (λ all. MatchResult result
        (λ words. words.items ≡ drop 1 (into_iter_items all)) (λ e. e ≡ Refusal.Memory)) }
    ensures memory { IfErr given (λ error. error_kind error ≡ ErrorKind.OutOfMemory
        → result ≡ Err Refusal.Memory) }
    ensures refused { IfErr given (λ error. error_kind error ≢ ErrorKind.OutOfMemory
        → result ≡ Err Refusal.Usage) }
    ensures lost { IfErr result (λ e. (e ≡ Refusal.Usage) ⊎ (e ≡ Refusal.Memory)) }
{
    let mut all = match given {
        Ok(all) => all,
        Err(error) if error.kind() == ErrorKind::OutOfMemory => return Err(Refusal::Memory),
        Err(_) => return Err(Refusal::Usage),
    };
    let _name = all.next();
    let mut words = Vec::new(alloc);
    while let Some(word) = all.next() {
        if words.push(word).is_err() {
            return Err(Refusal::Memory);
        }
    }
    Ok(words)
}
