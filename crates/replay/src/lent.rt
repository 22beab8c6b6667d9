//! The slices as they are lent to the lowering of a book.

ghost use Rattle.std.specs.Prelude.{◌≡◌, length, drop};
ghost use Rattle.replay.specs.Lent.{lent_byte, patterned};
ghost use Rattle.replay.specs.Said.{same};

/// What a slice is filled with: byte i is `step` i + `first`, modulo 256.
#[derive(Clone, Copy, Debug)]
pub struct Pattern {
    pub step: u8,
    pub first: u8,
}

impl Pattern {
    // Byte i of a slice as lent.
    #[tactic(auto, using(crate::proofs::Patterns::byte_is))]
    fn byte(self, i: usize) -> u8
        ensures { result ≡ lent_byte self.step self.first i }
    {
        self.step
            .wrapping_mul((i % 256) as u8)
            .wrapping_add(self.first)
    }

    /// Fills a slice as it is lent.
    pub(crate) fn fill(self, s: &mut [u8])
        ensures { s.new ≡ patterned (length s.old) self.step self.first }
    {
        for (i, place) in s.iter_mut().enumerate() {
            *place = self.byte(i);
        }
    }

    /// Whether all of a slice from a place on is as lent.
    pub(crate) fn goes_on(self, s: &[u8], at: usize) -> bool
        ensures { result ≡ same (drop at s.now) (drop at (patterned (length s.now) self.step self.first)) }
    {
        s.iter()
            .enumerate()
            .skip(at)
            .all(|(i, byte)| *byte == self.byte(i))
    }
}
