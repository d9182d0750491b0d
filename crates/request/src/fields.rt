// The fields of a request's data.
ghost use Rattle.std.specs.Prelude.{◌≡◌, ℕ, ◌+◌, ◌-◌, ◌*◌, ◌^◌, ◌<◌, ◌≤◌, length, drop, Result, IfOk};
ghost use Rattle.wire.specs.Numbers.{per_byte};
ghost use Rattle.frame.specs.declared.fault.Fault.{Fault};
ghost use Rattle.request.specs.Fields.{data_fault, number_at, device_at, present, counts_at, list_end, CanRead, Reads, ReadsWithin, ends};

use device::Device;
use frame::{Cause, Fault};
use wire::{FieldFault, WireCode};

// The fault of the field that stands at `at`.
pub(crate) fn data_fault(at: usize, fault: FieldFault) -> Fault
    requires { at + 255 < 2 ^ 64 }
    ensures { result ≡ data_fault at fault }
{
    match fault {
        FieldFault::Missing => Cause::BadSize.at(at),
        FieldFault::Unknown => Cause::UnknownDevice.at(at),
        FieldFault::Digit(offset) => Cause::DataDigit.at(at + usize::from(offset)),
    }
}

// A place in the data of a frame, where a field begins.
#[derive(Clone, Copy)]
pub(crate) struct Place<'a> {
    pub frame: &'a [u8],
    pub at: usize,
    ghost inside: { at ≤ length frame.now },
}

impl<'a> Place<'a> {
    // Another place in the same frame.
    pub fn to(self, at: usize) -> Place<'a>
        requires { at ≤ length self.frame.now }
        ensures frame { result.frame.now ≡ self.entry.frame.now }
        ensures at { result.at ≡ at }
    {
        Place {
            frame: self.frame,
            at,
        }
    }

    // The place behind a field that used so many wire bytes.
    pub fn on(self, used: usize) -> Place<'a>
        requires { self.at + used ≤ length self.frame.now }
        ensures frame { result.frame.now ≡ self.entry.frame.now }
        ensures at { result.at ≡ self.entry.at + used }
    {
        self.to(self.at + used)
    }

    // The number of `size` bytes, and the wire bytes it used.
    pub fn number<C: WireCode>(self, size: usize) -> Result<(u32, usize), Fault>
        requires { size ≤ 4 }
        ensures value { result ≡ number_at C.WireCode.which self.entry.frame.now self.entry.at size }
        ensures within { IfOk result (λ p. (self.entry.at + p.1 ≤ length self.entry.frame.now) × (p.0 < 256 ^ size) × (p.1 ≡ size * per_byte C.WireCode.which)) }
    {
        wire::number_at::<C>(self.frame, self.at, size).map_err(|fault| data_fault(self.at, fault))
    }

    // The device field: the device, the number, and the wire bytes it used.
    // Like the number above but for the reader, which is one call: a parameter for it would be longer.
    pub fn device<C: WireCode>(self) -> Result<(Device, u32, usize), Fault>
        ensures value { result ≡ device_at C.WireCode.which self.entry.frame.now self.entry.at }
        ensures within { IfOk result (λ d. (self.entry.at + d.2 ≤ length self.entry.frame.now) × (d.1 < 2 ^ 24) × (d.2 ≡ 4 * per_byte C.WireCode.which)) }
    {
        wire::device_at::<C>(self.frame, self.at).map_err(|fault| data_fault(self.at, fault))
    }

    // A field of `size` wire bytes is there.
    pub fn present(self, size: usize) -> Result<usize, Fault>
        ensures value { result ≡ present self.entry.frame.now self.entry.at size }
        ensures within { IfOk result (λ n. (n ≡ size) × (self.entry.at + size ≤ length self.entry.frame.now)) }
    {
        if self.frame.len() - self.at < size {
            return Err(Cause::BadSize.at(self.at));
        }
        Ok(size)
    }

    // The pair of counts, and the wire bytes it used.
    pub fn counts<C: WireCode>(self) -> Result<(usize, usize, usize), Fault>
        ensures value { result ≡ counts_at C.WireCode.which self.entry.frame.now self.entry.at }
        ensures within { IfOk result (λ p. (self.entry.at + p.2 ≤ length self.entry.frame.now) × (p.0 < 256) × (p.1 < 256) × (p.2 ≡ 2 * per_byte C.WireCode.which)) }
    {
        let used = self.present(C::field_size(2))?;
        let (first, one) = self.number::<C>(1)?;
        let (second, _) = self.on(one).number::<C>(1)?;
        Ok((first as usize, second as usize, used))
    }

    // The frame from here on.
    pub fn rest(self) -> &'a [u8]
        ensures value { result.now ≡ drop self.entry.at self.entry.frame.now }
        ensures long { length result.now ≡ length self.entry.frame.now - self.entry.at }
    {
        &self.frame[self.at..]
    }

    // The end of the data: bytes that are left are a fault at the first of them.
    pub fn ended(self) -> Result<(), Fault>
        ensures { result ≡ ends self.entry.frame.now self.entry.at tt }
    {
        if self.at < self.frame.len() {
            return Err(Cause::BadSize.at(self.at));
        }
        Ok(())
    }
}

// Reads so many entries, one behind the other from `at` on, and says where they end.
pub(crate) fn list_end<T: Copy, F: Fn(usize) -> Result<(T, usize), Fault>>(
    at: usize,
    count: usize,
    read: F,
) -> Result<usize, Fault>
    requires { CanRead (F.pre read) (F.post read) count at }
    ensures value { (r : ℕ → Result (T × ℕ) Fault) → Reads (F.post read) r → result ≡ list_end r count at }
    ensures within { (n : ℕ) → ReadsWithin (F.pre read) (F.post read) n → at ≤ n → IfOk result (λ end. end ≤ n) }
{
    let mut place = at;
    // A loop: its invariant carries that the next place fits, which the closure of a fold could not know.
    for _ in 0..count {
        let (_, used) = read(place)?;
        place += used;
    }
    Ok(place)
}
