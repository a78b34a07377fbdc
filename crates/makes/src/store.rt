// The memory of a script, of whichever make was asked for.
ghost use Rattle.std.specs.Prelude.{◌≡◌, length, replicate, IfOk};
ghost use Rattle.makes.specs.Stores.{asked_kind, made_size, store_bytes, store_kind};

use lines::MemoryMake;
use memory::{Flat, Memory, Spliced, Words};
use std::alloc::{AllocError, Global};

// Does the same to what an enum of the makes holds, whichever it is.
macro_rules! for_make {
    ($kind:ident, $value:expr, $held:ident => $result:expr) => {
        match $value {
            $kind::Flat($held) => $result,
            $kind::Words($held) => $result,
            $kind::Spliced($held) => $result,
        }
    };
}

pub(crate) use for_make;

// Turns what one enum of the makes holds into what another holds at the same make.
macro_rules! map_make {
    ($from:ident, $value:expr, $held:ident => $to:ident, $result:expr) => {
        match $value {
            $from::Flat($held) => $to::Flat($result),
            $from::Words($held) => $to::Words($result),
            $from::Spliced($held) => $to::Spliced($result),
        }
    };
}

pub(crate) use map_make;

#[derive(Drop)]
pub enum Store {
    Flat(Flat),
    Words(Words),
    Spliced(Spliced<Flat, Words>),
}

impl Store {
    // A memory of zeros.
    #[tactic(auto, using(crate::proofs::Zeros::cut_zeros, crate::proofs::Zeros::words_zeros, crate::proofs::Zeros::spliced_zeros))]
    pub fn new(heap: Global, make: MemoryMake) -> Result<Store, AllocError>
        ensures { IfOk result (λ s. (store_kind s ≡ asked_kind make) × (store_bytes s ≡ replicate (made_size make) 0)) }
    {
        match make {
            MemoryMake::Flat(n) => Ok(Store::Flat(Flat::new(vec![in heap; 0u8; n as usize]?))),
            MemoryMake::Words(n) => Ok(Store::Words(Words::new(vec![in heap; 0u64; n as usize]?))),
            MemoryMake::Spliced(n, m) => {
                let first = Flat::new(vec![in heap; 0u8; n as usize]?);
                let second = Words::new(vec![in heap; 0u64; m as usize]?);
                Ok(Store::Spliced(Spliced::new(first, second)))
            }
        }
    }

    pub fn size(&self) -> u64
        ensures { result ≡ length (store_bytes self.now) }
    {
        for_make!(Store, self, memory => memory.size())
    }
}
