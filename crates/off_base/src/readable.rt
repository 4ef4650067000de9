ghost use Rattle.std.specs.Prelude.{◌≡◌, ◌<◌, ℕ, List, length, slice_index};

// Bytes by their places, wherever they lie.
pub(crate) trait Readable {
    ghost bytes: { Self → List ℕ };

    fn len(&self) -> usize
        ensures { result ≡ length (bytes self.now) };

    fn byte(&mut self, place: usize) -> u8
        requires { place < length (bytes self.old) }
        ensures byte { result ≡ slice_index (bytes self.old) place }
        ensures same { bytes self.new ≡ bytes self.old };
}

// Bytes that lie in one piece.
#[derive(Drop)]
pub(crate) struct Plain<'a> {
    pub(crate) bytes: &'a [u8],
}

impl<'a> Readable for Plain<'a> {
    ghost bytes = { λ plain. plain.bytes.now };

    fn len(&self) -> usize {
        self.bytes.len()
    }

    fn byte(&mut self, place: usize) -> u8 {
        self.bytes[place]
    }
}
