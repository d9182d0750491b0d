// The replies that a call writes.
ghost use Rattle.std.specs.Prelude.{◌≡◌, ◌+◌, ◌*◌, ◌^◌, ◌<◌, ◌≤◌, length, drop, Some, None};
ghost use Rattle.device.specs.Devices.{kind_of};
ghost use Rattle.device.specs.declared.types.Kind.TheVariants.{Bit};
ghost use Rattle.wire.specs.Numbers.{per_byte};
ghost use Rattle.request.specs.Fields.{list_in};
ghost use Rattle.request.specs.Entries.{access_in};
ghost use Rattle.server.specs.Points.{words, bits};
ghost use Rattle.server.specs.Registered.{Listed, words_of, doubles_of};
ghost use Rattle.server.specs.Answers.{accepted, refused, no_data, in_bits, in_words, answer_bytes};
ghost use Rattle.server.specs.Serves.{Tells, Replies, shown_list, monitored};

use crate::answer::Answer;
use crate::points::Width;
use crate::registering::Registering;
use crate::showing::{write_bits, write_kept, write_listed, write_words};
use device::Device;
use frame::{Cause, Fault, Header, write_error_data, write_head};
use memory::ReadableMemory;
use wire::WireCode;

// The reply space of a frame that was taken up, and what its header said.
#[derive(Drop)]
pub(crate) struct Reply<'a> {
    pub space: &'a mut [u8],
    pub header: Header,
    ghost room: { 4096 ≤ length space.now },
}

// The clauses `name` and `fits` of each method join the space before and after the call; the space is the caller's, so no field could hold them.
impl Reply<'_> {
    // The answer to the frame, which was taken whole, with a reply of this length and any fault.
    fn answer(&self, length: usize, fault: Option<Fault>) -> Answer
        ensures taken { result.taken ≡ self.now.header.size }
        ensures length { result.length ≡ length }
        ensures fault { result.fault ≡ fault }
    {
        Answer {
            taken: self.header.size,
            length,
            fault,
        }
    }

    // The error reply.
    pub(crate) fn refuse<C: WireCode>(&mut self, fault: Fault) -> Answer
        ensures tells { Tells self.old.header.size (answer_bytes C.which self.old.header (refused fault.cause)) (Some fault) result self.old.space.now self.new.space.now }
        ensures name { self.new.space.ghost_name ≡ self.old.space.ghost_name }
        ensures fits { result.length ≤ length self.old.space.now }
    {
        let size = C::field_size(9);
        let at = write_head::<C>(self.space, self.header, size, fault.cause.number());
        let length = write_error_data::<C>(self.space, at, self.header);
        self.answer(length, Some(fault))
    }

    // The reply to a batch read in words.
    // It and the next are apart, since a function that takes the size and what writes the data would be no shorter.
    pub(crate) fn show_words<C: WireCode, M: ReadableMemory>(
        &mut self,
        memory: &M,
        device: Device,
        number: u32,
        points: usize,
    ) -> Answer
        requires { (points ≤ 960) × (number < 2 ^ 24) }
        ensures tells { Replies C.which self.old.header (accepted (in_words (words (M.means memory.now).value device number points))) result self.old.space.now self.new.space.now }
        ensures name { self.new.space.ghost_name ≡ self.old.space.ghost_name }
        ensures fits { result.length ≤ length self.old.space.now }
    {
        let size = points * C::field_size(2);
        let at = write_head::<C>(self.space, self.header, size, 0);
        write_words::<C, M>(self.space, at, memory, device, number, points);
        self.answer(at + size, None)
    }

    // The reply to a batch read in bits.
    pub(crate) fn show_bits<C: WireCode, M: ReadableMemory>(
        &mut self,
        memory: &M,
        device: Device,
        number: u32,
        points: usize,
    ) -> Answer
        requires { (points ≤ 3584) × (number < 2 ^ 24) × (kind_of device ≡ Bit) }
        ensures tells { Replies C.which self.old.header (accepted (in_bits (bits (M.means memory.now).value device number points))) result self.old.space.now self.new.space.now }
        ensures name { self.new.space.ghost_name ≡ self.old.space.ghost_name }
        ensures fits { result.length ≤ length self.old.space.now }
    {
        let size = C::bits_size(points);
        let at = write_head::<C>(self.space, self.header, size, 0);
        write_bits::<C, M>(self.space, at, memory, device, number, points);
        self.answer(at + size, None)
    }

    // The reply to a request that was carried out and has no data to show.
    pub(crate) fn accept<C: WireCode>(&mut self) -> Answer
        ensures tells { Replies C.which self.old.header (accepted no_data) result self.old.space.now self.new.space.now }
        ensures name { self.new.space.ghost_name ≡ self.old.space.ghost_name }
        ensures fits { result.length ≤ length self.old.space.now }
    {
        let at = write_head::<C>(self.space, self.header, 0, 0);
        self.answer(at, None)
    }

    // The reply that shows the accesses of a request's list: so many of a word, and then of a double word.
    pub(crate) fn show_random<C: WireCode, M: ReadableMemory>(
        &mut self,
        memory: &M,
        list: &[u8],
        words: usize,
        doubles: usize,
    ) -> Answer
        requires few { words + doubles ≤ 192 }
        requires whole { let behind = drop (words * (4 * per_byte C.which)) list.now in
            (length (list_in (access_in C.which) words list.now) ≡ words) × (length (list_in (access_in C.which) doubles behind) ≡ doubles) }
        ensures tells { let behind = drop (words * (4 * per_byte C.which)) list.now in
            let listed : Listed = (list_in (access_in C.which) words list.now, list_in (access_in C.which) doubles behind) in
            Replies C.which self.old.header (shown_list (M.means memory.now) listed) result self.old.space.now self.new.space.now }
        ensures name { self.new.space.ghost_name ≡ self.old.space.ghost_name }
        ensures fits { result.length ≤ length self.old.space.now }
    {
        let size = words * C::field_size(2) + doubles * C::field_size(4);
        let behind = words * C::field_size(4);
        let at = write_head::<C>(self.space, self.header, size, 0);
        let end = write_listed::<C, M>(self.space, at, memory, list, 0, words, Width::Word);
        let length = write_listed::<C, M>(
            self.space,
            end,
            memory,
            list,
            behind,
            doubles,
            Width::Double,
        );
        self.answer(length, None)
    }

    // The reply that shows the accesses of a registration: so many of a word, and then of a double word.
    fn show_kept<C: WireCode, M: ReadableMemory, R: Registering>(
        &mut self,
        memory: &M,
        registration: &R,
        words: usize,
        doubles: usize,
    ) -> Answer
        requires few { words + doubles ≤ 192 }
        requires many { (length (words_of (R.lists registration.now)) ≡ words) × (length (doubles_of (R.lists registration.now)) ≡ doubles) }
        ensures tells { let listed : Listed = (words_of (R.lists registration.now), doubles_of (R.lists registration.now)) in
            Replies C.which self.old.header (shown_list (M.means memory.now) listed) result self.old.space.now self.new.space.now }
        ensures name { self.new.space.ghost_name ≡ self.old.space.ghost_name }
        ensures fits { result.length ≤ length self.old.space.now }
    {
        let size = words * C::field_size(2) + doubles * C::field_size(4);
        let at = write_head::<C>(self.space, self.header, size, 0);
        let end = write_kept::<C, M, R>(
            self.space,
            at,
            memory,
            registration,
            0,
            words,
            Width::Word,
        );
        let length = write_kept::<C, M, R>(
            self.space,
            end,
            memory,
            registration,
            words,
            doubles,
            Width::Double,
        );
        self.answer(length, None)
    }

    // The reply to a monitor request: the registered list, or that there is none.
    pub(crate) fn show_registered<C: WireCode, M: ReadableMemory, R: Registering>(
        &mut self,
        memory: &M,
        registration: &R,
    ) -> Answer
        ensures tells { Replies C.which self.old.header (monitored (M.means memory.now) (R.lists registration.now)) result self.old.space.now self.new.space.now }
        ensures name { self.new.space.ghost_name ≡ self.old.space.ghost_name }
        ensures fits { result.length ≤ length self.old.space.now }
    {
        match registration.counts() {
            Some((words, doubles)) => {
                self.show_kept::<C, M, R>(memory, registration, words, doubles)
            }
            None => {
                let fault = Cause::NotRegistered.at(self.header.command_at);
                self.refuse::<C>(fault)
            }
        }
    }
}
