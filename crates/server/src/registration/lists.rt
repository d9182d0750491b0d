// Making, asking and filling a registration.
ghost use Rattle.std.specs.Prelude.{◌≡◌, ◌+◌, ◌*◌, ◌≤◌, length, drop, Some, None};
ghost use Rattle.std.proofs.lemmas.List.Edits.{sets};
ghost use Rattle.wire.specs.Numbers.{per_byte};
ghost use Rattle.request.specs.Fields.{list_in};
ghost use Rattle.request.specs.Entries.{access_in};
ghost use Rattle.server.specs.Counts.{counted};
ghost use Rattle.server.specs.Registered.{accesses, registered};

use super::{Access, Registration};
use crate::registering::Registering;
use device::Device;
use request::access_at;
use wire::WireCode;

// An entry that holds no access yet.
const UNUSED: Access = Access {
    device: Device::M,
    number: 0,
};

// Fills entries with the accesses of a list, from a place in it on.
fn fill<C: WireCode>(entries: &mut [Access], list: &[u8], from: usize)
    ensures { accesses entries.new ≡ sets (accesses entries.old) 0 (list_in (access_in C.which) (length entries.old) (drop from list.now)) }
{
    let mut place = from;
    for entry in entries {
        let Ok(((device, number), used)) = access_at::<C>(list, place) else {
            return;
        };
        *entry = Access { device, number };
        place += used;
    }
}

// The registration of a list that was read: so many words, and then double words.
fn listed<C: WireCode>(list: &[u8], words: usize, doubles: usize) -> Registration
    requires few { words + doubles ≤ 192 }
    requires whole { (length (list_in (access_in C.which) words list.now) ≡ words) × (length (list_in (access_in C.which) doubles (drop (words * (4 * per_byte C.which)) list.now)) ≡ doubles) }
    ensures { registered result ≡ Some (list_in (access_in C.which) words list.now, list_in (access_in C.which) doubles (drop (words * (4 * per_byte C.which)) list.now)) }
{
    let mut entries = [UNUSED; 192];
    let count = words + doubles;
    fill::<C>(&mut entries[..words], list, 0);
    fill::<C>(&mut entries[words..count], list, words * C::field_size(4));
    Registration {
        count: Some(count),
        words,
        entries,
    }
}

impl Default for Registration {
    fn default() -> Registration
        ensures { registered result ≡ None }
    {
        Registration::new()
    }
}

impl Registration {
    // Nothing is registered.
    pub fn new() -> Registration
        ensures { registered result ≡ None }
    {
        Registration {
            count: None,
            words: 0,
            entries: [UNUSED; 192],
        }
    }

    // How many accesses are registered, if any are.
    pub fn count(&self) -> Option<usize>
        ensures value { result ≡ self.now.count }
        ensures few { counted result ≤ 192 }
    {
        self.count
    }

    // How many of them are of one word; they stand in front.
    pub fn word_count(&self) -> usize
        ensures value { result ≡ self.now.words }
        ensures part { result ≤ counted self.now.count }
    {
        self.words
    }

    // All the entries, of which those behind the registered accesses hold none.
    pub fn entries(&self) -> &[Access; 192]
        ensures { result.now ≡ self.now.entries }
    {
        &self.entries
    }
}

impl Registering for Registration {
    ghost lists = { registered };

    ghost good = { λ _. Unit {0} };

    fn counts(&self) -> Option<(usize, usize)> {
        self.count.map(|count| (self.words, count - self.words))
    }

    fn access(&self, index: usize) -> Access {
        self.entries[index]
    }

    // Not inlined, since a function clears its locals at its entry, and a list is large.
    #[inline(never)]
    fn replace<C: WireCode>(&mut self, list: &[u8], words: usize, doubles: usize) {
        *self = listed::<C>(list, words, doubles);
    }
}
