// What a controller has registered to be monitored.
ghost use Rattle.std.specs.Prelude.{◌≤◌};
ghost use Rattle.server.specs.Counts.{counted};

use device::Device;

// A device and the number of its first point.
#[derive(Clone, Copy, PartialEq, Eq, Debug)]
pub struct Access {
    pub device: Device,
    pub number: u32,
}

// The registered list: `words` accesses of one word, and then accesses of a double word.
#[derive(Clone, Copy)]
pub struct Registration {
    // how many accesses are registered; absent until the first accepted registration
    count: Option<usize>,
    words: usize,
    // a plain array with the counts beside it: the type is Copy, which a vector of fixed room is not, and the heap is not used here
    entries: [Access; 192],
    ghost few: { counted count ≤ 192 },
    ghost part: { words ≤ counted count },
}

mod lists;
