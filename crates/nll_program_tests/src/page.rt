//! A stream of a fixed length.
ghost use Rattle.std.specs.Prelude.{◌≤◌};

/// A stream that takes 1,024 bytes.
#[derive(Drop)]
pub struct Page {
    pub bytes: [u8; 1024],
    pub length: usize,
    ghost within: { length ≤ 1024 },
}

impl Page {
    ghost use Rattle.std.specs.Prelude.{◌≡◌, []};
    ghost use Rattle.nll_program_tests.specs.Known.{bytes_of};

    /// An empty page.
    pub fn new() -> Page
        ensures { bytes_of result ≡ [] }
    {
        Page {
            bytes: [0; 1024],
            length: 0,
        }
    }

    /// The bytes on the page.
    pub fn written(&self) -> &[u8]
        ensures { result.now ≡ bytes_of self.now }
    {
        &self.bytes[..self.length]
    }
}
