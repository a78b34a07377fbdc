// The record of each compartment's latest run: its error code and its count, the plain numbers that a caller asks for. An
// array, so that a machine needs no heap.
ghost use Rattle.std.specs.Prelude.{◌≡◌, ◌<◌, replicate, Some, None, slice_index_or, slice_set};

#[derive(Drop)]
pub struct Runs {
    latest: [Option<(u8, u64)>; 16],
}

impl Runs {
    pub(crate) fn none() -> Runs
        ensures { result.latest ≡ replicate 16 None }
    {
        Runs { latest: [None; 16] }
    }

    // The latest run of compartment k; the others' stay.
    pub(crate) fn record(&mut self, k: u16, code: u8, count: u64)
        requires { k < 16 }
        ensures { self.new.latest ≡ slice_set self.old.latest k (Some (code, count)) }
    {
        self.latest[k as usize] = Some((code, count));
    }

    // The latest run of compartment k, where it has run.
    pub(crate) fn latest(&self, k: u16) -> Option<(u8, u64)>
        requires { k < 16 }
        ensures { result ≡ slice_index_or self.now.latest k None }
    {
        self.latest[k as usize]
    }
}
