ghost use Rattle.std.specs.Prelude.{◌≡◌};
ghost use Rattle.cal_context.specs.LinkHash as hash;

use cal_seeds::Seeds;
use std::hash::{BuildHasher, Hasher};

/// Makes the hasher of each link.
///
/// A look-up costs little but the wait for the link's place in the table, and nodes come in an
/// order: the parents of new ones are mostly new themselves. So 32 neighbouring parents have their
/// nodes by one value in 32 places side by side, a page, which four values share whose numbers are
/// neighbours. What is added goes to a few pages, and the processor has them at hand.
///
/// The pages lie all over the table, and which place is a page's first is mixed too. So the nodes
/// below one parent lie all over, and where each of the parents has a node by all four values, a
/// page has four to a place. Then a search goes on over some ten places, however large the tree
/// is. Which pages meet, and where, follows from the seeds: nobody outside of a run can know it.
#[derive(Clone, Copy, Drop)]
pub(crate) struct LinkHashers {
    pub(crate) seeds: Seeds,
}

/// The last three numbers written: of a link its parent, its attribute and its value.
#[derive(Clone, Copy)]
pub(crate) struct LinkHasher {
    parent: u32,
    attribute: u32,
    value: u32,
    seeds: Seeds,
}

impl BuildHasher for LinkHashers {
    type Hasher = LinkHasher;

    ghost build_hasher = { λ s. record { parent = 0; attribute = 0; value = 0; seeds = s.seeds } };

    #[inline(always)]
    fn build_hasher(&self) -> LinkHasher {
        LinkHasher {
            parent: 0,
            attribute: 0,
            value: 0,
            seeds: self.seeds,
        }
    }
}

impl Hasher for LinkHasher {
    ghost write = { hash.write };

    ghost finish = { hash.finish };

    // The table takes the place from the low bits, and from the top eight of 32 a tag, by which it
    // tells all links of one page apart, and most others.
    #[inline(always)]
    fn finish(&self) -> u64 {
        let parent = self.parent as u64;
        let value = self.value as u64;
        let group = self.seeds.mixed((self.attribute as u64) << 32 | value / 4);
        let page = self.seeds.mixed(group.wrapping_add(parent / 32));
        let place = (page & 0x7_FFFF) << 5 | group.wrapping_add(parent) % 32;
        let tag = (page >> 40 ^ parent * 8 ^ value * 2) & 0xFF;
        place | tag << 24
    }

    #[inline(always)]
    fn write(&mut self, bytes: &[u8]) {
        *self = LinkHasher {
            parent: self.attribute,
            attribute: self.value,
            value: number(bytes),
            seeds: self.seeds,
        };
    }
}

// The number that `write_u32` writes.
#[inline(always)]
fn number(bytes: &[u8]) -> u32
    ensures { result ≡ hash.number bytes.now }
{
    if bytes.len() < 4 {
        return 0;
    }
    u32::from_le_bytes([bytes[0], bytes[1], bytes[2], bytes[3]])
}
