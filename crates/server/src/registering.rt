// What a call asks of a registration, however it is kept.
ghost use Rattle.std.specs.Prelude.{◌≡◌, ◌+◌, ◌*◌, ◌<◌, ◌≤◌, length, drop, Some, Option, IfSome};
ghost use Rattle.wire.specs.Numbers.{per_byte};
ghost use Rattle.request.specs.Fields.{list_in};
ghost use Rattle.request.specs.Entries.{access_in as read_access};
ghost use Rattle.server.specs.Registered.{Listed, counts_of, all_of, device_and_number, listed_access};

use crate::registration::Access;
use wire::WireCode;

// What keeps a registration: the server's own record, or the numbers of a caller that is not written in this language.
pub trait Registering {
    // the accesses of one word, and those of a double word; absent until the first accepted registration
    ghost lists: { Self → Option Listed };

    // what a call may find and leave, of whatever else the keeper could hold
    ghost good: { Self → Type 0 };

    // How many accesses of one word and of a double word are registered, if any are.
    fn counts(&self) -> Option<(usize, usize)>
        ensures value { result ≡ counts_of (lists self.now) }
        ensures few { IfSome result (λ c. c.0 + c.1 ≤ 192) };

    // The access with an index; those of a double word stand behind.
    fn access(&self, index: usize) -> Access
        requires { index < length (all_of (lists self.now)) }
        ensures { device_and_number result ≡ listed_access (lists self.now) index };

    // Takes up a list that was read in place of what was registered: so many accesses of a word, and then of a double word.
    fn replace<C: WireCode>(&mut self, list: &[u8], words: usize, doubles: usize)
        requires few { words + doubles ≤ 192 }
        requires whole { let behind = drop (words * (4 * per_byte C.which)) list.now in
            (length (list_in (read_access C.which) words list.now) ≡ words) × (length (list_in (read_access C.which) doubles behind) ≡ doubles) }
        ensures lists { let behind = drop (words * (4 * per_byte C.which)) list.now in
            lists self.new ≡ Some (list_in (read_access C.which) words list.now, list_in (read_access C.which) doubles behind) }
        ensures good { good self.new };
}
