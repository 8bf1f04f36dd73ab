// Numbers in bytes, least significant byte first: read and written at a place of a lent slice. Assumes nothing.
#![tactic(auto)]

ghost use Rattle.std.specs.Prelude.{◌≡◌, refl, ℕ, ◌+◌, ◌^◌, ◌<◌, ◌≤◌, length, take, drop};
ghost use Rattle.std.specs.Int.{w64};
ghost use Rattle.std.proofs.Common.{to_z, of_z};
ghost use Rattle.std.proofs.lemmas.Int.{of_z-to_z};
ghost use Rattle.words.specs.Word.{word, put};

// A number of `size` bytes. A read or a write of one compiles to one load or one store.
pub trait Word: Copy {
    ghost size: { ℕ };

    // The number as one without a sign, and back.
    ghost bits: { Self → ℕ };

    ghost of_bits: { ℕ → Self };

    fn read(bytes: &[u8], at: usize) -> Self
        requires { at + size ≤ length bytes.now }
        ensures { result ≡ of_bits (word size bytes.now at) };

    fn write(self, bytes: &mut [u8], at: usize)
        requires { at + size ≤ length bytes.old }
        ensures { bytes.new ≡ put size bytes.old at (bits self) };

    // What is read has the bits that stand there.
    ghost back: { (u : ℕ) → u < 256 ^ size → bits (of_bits u) ≡ u };
}

// The N bytes from at.
fn part<const N: usize>(bytes: &[u8], at: usize) -> [u8; N]
    requires { at + N ≤ length bytes.now }
    ensures { result ≡ take N (drop at bytes.now) }
{
    *bytes[at..at + N].first_chunk().unwrap()
}

impl Word for u8 {
    ghost size = { 1 };

    ghost bits = { λ x. x };

    ghost of_bits = { λ x. x };

    #[tactic(auto, unfolding(crate::specs::Word::word))]
    fn read(bytes: &[u8], at: usize) -> u8 {
        bytes[at]
    }

    #[tactic(auto, unfolding(crate::specs::Word::put))]
    fn write(self, bytes: &mut [u8], at: usize) {
        bytes[at] = self;
    }

    ghost back = { λ u f. refl };
}

// The impls of u16, u32 and u64 stay three: an impl by macro is refused, and one generic over them would need a trait of their
// `from_le_bytes` and `to_le_bytes`, which is `Word` once more.
impl Word for u16 {
    ghost size = { 2 };

    ghost bits = { λ x. x };

    ghost of_bits = { λ x. x };

    fn read(bytes: &[u8], at: usize) -> u16 {
        u16::from_le_bytes(part(bytes, at))
    }

    fn write(self, bytes: &mut [u8], at: usize) {
        bytes[at..at + 2].copy_from_slice(&self.to_le_bytes())
    }

    ghost back = { λ u f. refl };
}

impl Word for u32 {
    ghost size = { 4 };

    ghost bits = { λ x. x };

    ghost of_bits = { λ x. x };

    fn read(bytes: &[u8], at: usize) -> u32 {
        u32::from_le_bytes(part(bytes, at))
    }

    fn write(self, bytes: &mut [u8], at: usize) {
        bytes[at..at + 4].copy_from_slice(&self.to_le_bytes())
    }

    ghost back = { λ u f. refl };
}

impl Word for u64 {
    ghost size = { 8 };

    ghost bits = { λ x. x };

    ghost of_bits = { λ x. x };

    fn read(bytes: &[u8], at: usize) -> u64 {
        u64::from_le_bytes(part(bytes, at))
    }

    fn write(self, bytes: &mut [u8], at: usize) {
        bytes[at..at + 8].copy_from_slice(&self.to_le_bytes())
    }

    ghost back = { λ u f. refl };
}

// In two's complement.
impl Word for i64 {
    ghost size = { 8 };

    ghost bits = { of_z w64 };

    ghost of_bits = { to_z w64 };

    fn read(bytes: &[u8], at: usize) -> i64 {
        u64::read(bytes, at).cast_signed()
    }

    fn write(self, bytes: &mut [u8], at: usize) {
        self.cast_unsigned().write(bytes, at)
    }

    ghost back = { λ u f. of_z-to_z w64 u f };
}
