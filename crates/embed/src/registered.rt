// A registration as the caller keeps it, in plain numbers.
ghost use Rattle.std.specs.Prelude.{◌≡◌, ◌+◌, ◌^◌, ◌<◌, true, map};
ghost use Rattle.std.specs.List.{list_all};
ghost use Rattle.server.specs.Registered.{registered};
ghost use Rattle.embed.specs.Registered.{is_named, is_listing, entry_access, kept_of, kept_list};

use device::{DEVICES, Device};
use server::{Access, Registering, Registration};
use wire::WireCode;

// An access: the place of its device in the table, and the number of its first point.
#[repr(C)]
#[derive(Clone, Copy, PartialEq, Eq, Debug)]
pub struct BenchAccess {
    pub device: u32,
    pub number: u32,
}

// Whether anything is registered, and what: `words` accesses of one word, and then `doubles` of a double word.
#[repr(C)]
#[derive(Clone, Copy)]
pub struct BenchRegistration {
    pub registered: bool,
    pub words: u32,
    pub doubles: u32,
    pub entries: [BenchAccess; 192],
}

impl BenchAccess {
    // Whether a device has its place.
    fn is_named(&self) -> bool
        ensures { result ≡ is_named self.now }
    {
        self.device < 12
    }

    // The access; of M where no device has its place.
    fn access(&self) -> Access
        ensures { result ≡ entry_access self.now }
    {
        let device = if self.device < 12 {
            DEVICES[self.device as usize].device
        } else {
            Device::M
        };
        Access {
            device,
            number: self.number,
        }
    }

    // An access as the caller keeps it.
    fn of(access: &Access) -> BenchAccess
        ensures { result ≡ kept_of access.now }
    {
        BenchAccess {
            device: access.device.place() as u32,
            number: access.number,
        }
    }
}

// Whether each of them is an access of a device.
fn all_named(entries: &[BenchAccess]) -> bool
    ensures { result ≡ list_all is_named entries.now }
{
    entries.iter().all(|entry| entry.is_named())
}

impl BenchRegistration {
    // How many accesses it lists.
    fn count(&self) -> usize
        ensures value { result ≡ self.now.words + self.now.doubles }
        ensures bound { result < 2 ^ 33 }
    {
        self.words as usize + self.doubles as usize
    }

    // Whether it can be listed: nothing is registered, or at most 192 accesses, each of a device. A call leaves it so.
    pub(crate) fn is_listing(&self) -> bool
        ensures { result ≡ is_listing self.now }
    {
        let count = self.count();
        !self.registered || count <= 192 && all_named(&self.entries[..count])
    }
}

// Turns accesses into entries for the caller to keep.
fn write_entries(entries: &mut [BenchAccess; 192], accesses: &[Access; 192])
    ensures { entries.new ≡ map kept_of accesses.now }
{
    for i in 0..192usize {
        entries[i] = BenchAccess::of(&accesses[i]);
    }
}

// Hands a registration back to the caller.
fn keep(kept: &mut BenchRegistration, registration: &Registration)
    ensures lists { kept_list kept.new ≡ registered registration.now }
    ensures listing { is_listing kept.new ≡ true }
{
    match registration.count() {
        Some(count) => {
            let words = registration.word_count();
            kept.registered = true;
            kept.words = words as u32;
            kept.doubles = (count - words) as u32;
            write_entries(&mut kept.entries, registration.entries());
        }
        None => kept.registered = false,
    }
}

// The caller's numbers keep a registration as they are: an access is turned into one of the server's when it is asked for.
impl Registering for BenchRegistration {
    ghost lists = { kept_list };

    ghost good = { λ k. is_listing k ≡ true };

    fn counts(&self) -> Option<(usize, usize)> {
        (self.registered && self.count() <= 192).then_some((
            self.words as usize,
            self.doubles as usize,
        ))
    }

    fn access(&self, index: usize) -> Access {
        self.entries[index].access()
    }

    // Not inlined, since a function clears its locals at its entry, and a list is large.
    #[inline(never)]
    fn replace<C: WireCode>(&mut self, list: &[u8], words: usize, doubles: usize) {
        let mut registration = Registration::new();
        registration.replace::<C>(list, words, doubles);
        keep(self, &registration);
    }
}
