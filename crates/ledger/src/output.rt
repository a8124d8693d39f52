ghost use Rattle.std.specs.Prelude.{◌≡◌};

// Lent bytes that lines are written to, one after another. The bytes are the host's, so they are no vector of ours.
#[derive(Drop)]
pub struct Output<'o> {
    bytes: &'o mut [u8],
    // how many of them, from the first on, are written
    len: usize,
}

impl<'o> Output<'o> {
    // An output in which nothing is written yet.
    pub fn over(bytes: &'o mut [u8]) -> Output<'o>
        ensures held { result.bytes.now ≡ bytes.old }
        ensures none { result.len ≡ 0 }
        ensures same { result.bytes.ghost_name ≡ bytes.entry.ghost_name }
    {
        Output { bytes, len: 0 }
    }

    // How many bytes are written.
    pub fn len(&self) -> usize
        ensures { result ≡ self.now.len }
    {
        self.len
    }
}

mod put;
