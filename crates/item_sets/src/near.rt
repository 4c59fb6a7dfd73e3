//! A hash by which keys with nearly the same last two numbers stand together, so that a walk from place to place looks up what lies
//! in the cache.
ghost use Rattle.std.specs.Prelude.{◌≡◌, slice_index_or};
ghost use Rattle.item_sets.specs.Near.{start, written, finished, mixed_with, number_in, block_of};

use std::hash::Hasher;

/// A hasher of 32-bit numbers, of which those before the last two are mixed.
#[derive(Clone, Copy)]
pub struct NearHasher {
    mixed: u64,
    before: u64,
    last: u64,
}

impl Default for NearHasher {
    ghost is_default = { λ h. h ≡ start };

    fn default() -> NearHasher {
        NearHasher {
            mixed: 0,
            before: 0,
            last: 0,
        }
    }
}

impl Hasher for NearHasher {
    ghost write = { written };

    ghost finish = { finished };

    #[inline(always)]
    fn finish(&self) -> u64 {
        let block = block_of(self);
        let within = self.before % 4 * 4 + self.last % 4;
        (block % 4_294_967_296) ^ (within * 268_435_456)
    }

    #[inline(always)]
    fn write(&mut self, bytes: &[u8]) {
        self.mixed = mixed_with(self.mixed, self.before);
        self.before = self.last;
        self.last = number_in(bytes);
    }
}

#[inline(always)]
fn mixed_with(state: u64, number: u64) -> u64
    ensures { result ≡ mixed_with state number }
{
    let product = (state ^ number).wrapping_mul(0x9e37_79b9_7f4a_7c15);
    product ^ (product / 4_294_967_296)
}

#[inline(always)]
fn byte_at(bytes: &[u8], place: usize) -> u64
    ensures { result ≡ slice_index_or bytes.now place 0 }
{
    match bytes.get(place) {
        Some(byte) => *byte as u64,
        None => 0,
    }
}

// The first four bytes as a number.
#[inline(always)]
fn number_in(bytes: &[u8]) -> u64
    ensures { result ≡ number_in bytes.now }
{
    byte_at(bytes, 0)
        + byte_at(bytes, 1) * 256
        + byte_at(bytes, 2) * 65_536
        + byte_at(bytes, 3) * 16_777_216
}

// What near keys have in common.
#[inline(always)]
fn block_of(hasher: &NearHasher) -> u64
    ensures { result ≡ block_of hasher.now }
{
    mixed_with(mixed_with(hasher.mixed, hasher.before / 4), hasher.last / 4)
}
