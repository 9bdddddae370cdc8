//! What a text lists that has one item a line.

ghost use Rattle.std.specs.Prelude.{◌≡◌};
ghost use Rattle.nll_format.specs.Listing.{Listing};
ghost use Rattle.nll_lists.specs.Lists.{HasSomePart, IsItemOf};

use nll_format::TextKind;

/// A kind of texts that list items, one a line after the header.
pub trait ListFormat {
    /// What a line lists.
    type Item: Drop;

    /// The header of the texts, the entries of their lines, and what is wrong with an entry.
    ghost listing: { Self → Listing };

    /// The entry that an item stands for.
    ghost entry: { (format : Self) → Self.Item → (listing format).Entry };

    /// The first run of the header, the kind of text.
    fn kind(&self) -> &'static [u8]
        ensures { result.now ≡ (listing self.now).kind };

    /// The second run of the header, the version.
    fn version(&self) -> &'static [u8]
        ensures { result.now ≡ (listing self.now).version };

    /// The item of a line; none where the line is that of no entry.
    ///
    /// # Errors
    /// What is wrong with the entry of the line.
    fn item(&self, line: &[u8]) -> Result<Option<Self::Item>, TextKind>
        ensures { IsItemOf (listing self.now) (entry self.now) line.now result };

    /// The line of an entry has a part, so it is no line that is skipped.
    ghost some_part: { (format : Self) → HasSomePart (listing format) };
}
