// Points read out of any readable memory, as bits and as words.
ghost use Rattle.std.specs.Prelude.{◌≡◌, ◌+◌, ◌-◌, ◌*◌, ◌^◌, ◌<◌, ◌≤◌};
ghost use Rattle.device.specs.Devices.{kind_of};
ghost use Rattle.device.specs.declared.types.Kind.TheVariants.{Bit};
ghost use Rattle.request.specs.Limits.{points};
ghost use Rattle.server.specs.Points.{packed, word, double, value_of, bytes_of};

use device::{Device, Kind};
use memory::ReadableMemory;

// The value of a point; 0 outside.
pub(crate) fn value_at<M: ReadableMemory>(memory: &M, device: Device, number: u32) -> u16
    ensures { result ≡ (M.means memory.now).value device number }
{
    memory.read(device, number).unwrap_or(0)
}

// The number with one more bit below it.
fn with_bit(word: u16, bit: u16) -> u16
    requires { (word < 2 ^ 15) × (bit < 2) }
    ensures { result ≡ bit + 2 * word }
{
    2 * word + bit
}

// Sixteen bit points as one word, the lowest number in bit 0.
fn sixteen<M: ReadableMemory>(memory: &M, device: Device, number: u32) -> u16
    requires { (kind_of device ≡ Bit) × (number < 2 ^ 31) }
    ensures { result ≡ packed (M.means memory.now).value device number 16 }
{
    let mut word = 0;
    // By index, since points are asked for by their numbers; a fold would not know that the word still has room for a bit.
    for i in (0..16u32).rev() {
        word = with_bit(word, value_at(memory, device, number + i));
    }
    word
}

// The word that begins at a point.
pub(crate) fn word_at<M: ReadableMemory>(memory: &M, device: Device, number: u32) -> u16
    requires { number < 2 ^ 31 }
    ensures { result ≡ word (M.means memory.now).value device number }
{
    match device.kind() {
        Kind::Bit => sixteen(memory, device, number),
        Kind::Word => value_at(memory, device, number),
    }
}

// How many points a word of the device has: what the crate below says of any count of words, in a function that is not public.
pub(crate) fn word_points(device: Device) -> u32
    ensures value { result ≡ points (kind_of device) 1 }
    ensures few { result ≤ 16 }
{
    match device.kind() {
        Kind::Bit => 16,
        Kind::Word => 1,
    }
}

// The double word that begins at a point: the low word first.
fn double_at<M: ReadableMemory>(memory: &M, device: Device, number: u32) -> u32
    requires { number < 2 ^ 30 }
    ensures { result ≡ double (M.means memory.now).value device number }
{
    let low = u32::from(word_at(memory, device, number));
    let high = u32::from(word_at(memory, device, number + word_points(device)));
    low + 65536 * high
}

// How much an access or a setting of a list covers; its number is how many bytes its value has.
#[derive(Clone, Copy, PartialEq, Eq, Debug)]
pub enum Width {
    Point = 1,
    Word = 2,
    Double = 4,
}

impl Width {
    // How many bytes its value has.
    pub(crate) fn bytes(self) -> usize
        ensures value { result ≡ bytes_of self }
        ensures few { result ≤ 4 }
    {
        self as usize
    }
}

// A number that lies past every extent.
const FAR: u32 = 0x4000_0000;

// The value of an access.
pub(crate) fn access_value<M: ReadableMemory>(
    memory: &M,
    device: Device,
    number: u32,
    width: Width,
) -> u32
    ensures { result ≡ value_of width (M.means memory.now).value device number }
{
    // tested once, so that no sum of the loops below has to be
    if number >= FAR {
        return 0;
    }
    match width {
        Width::Point => u32::from(value_at(memory, device, number)),
        Width::Word => u32::from(word_at(memory, device, number)),
        Width::Double => double_at(memory, device, number),
    }
}
