// What a memory's storage is made of, and how it is printed.
use crate::hex::{bytes_text, words_text};
use crate::line::Line;
use crate::run::run_section;
use memory::{ByteImage, PackedTables, Refusal, bytes_needed, fits, image_fits, words_needed};
use std::alloc::{AllocError, Global};
use std::io;

pub trait Storage {
    // The storage in hexadecimal digits: four a word, or two a byte.
    fn digits(&self, heap: Global) -> Result<String, AllocError>;
}

impl<'a> Storage for PackedTables<'a> {
    fn digits(&self, heap: Global) -> Result<String, AllocError> {
        words_text(heap, self.words())
    }
}

impl<'a> Storage for ByteImage<'a> {
    fn digits(&self, heap: Global) -> Result<String, AllocError> {
        bytes_text(heap, self.bytes())
    }
}

impl<'b, M: Storage> Storage for &'b mut M {
    fn digits(&self, heap: Global) -> Result<String, AllocError> {
        (**self).digits(heap)
    }
}

// A unit of storage: a word of packed tables, or a byte of an image. The crate below has such a trait too, which is not public.
pub trait Unit: Copy {
    fn zero() -> Self;

    // The name of several units.
    fn name() -> &'static str;

    // How many units a memory of these extents takes; refused where an extent is too large.
    fn needed(extents: &[u32; 12]) -> Result<usize, Refusal>;

    // Whether a memory of these extents can be made over so many units.
    fn fits(size: usize, extents: &[u32; 12]) -> Result<(), Refusal>;

    // Tells what kind of memory it is, and how large.
    fn tell_size(rt: &HostRuntime, size: usize) -> io::Result<()>;

    // Makes a memory over the units, and carries the lines out on it.
    fn run(
        rt: &HostRuntime,
        units: &mut [Self],
        extents: [u32; 12],
        lines: &[Line],
    ) -> io::Result<()>;
}

impl Unit for u16 {
    fn zero() -> u16 {
        0
    }

    fn name() -> &'static str {
        "words"
    }

    fn needed(extents: &[u32; 12]) -> Result<usize, Refusal> {
        words_needed(extents)
    }

    fn fits(size: usize, extents: &[u32; 12]) -> Result<(), Refusal> {
        fits(size, extents)
    }

    fn tell_size(rt: &HostRuntime, size: usize) -> io::Result<()> {
        println!(rt; "  packed tables in {size} words of 16 bits")
    }

    fn run(
        rt: &HostRuntime,
        words: &mut [u16],
        extents: [u32; 12],
        lines: &[Line],
    ) -> io::Result<()> {
        let mut tables = PackedTables::new(words, extents);
        run_section(rt, &mut tables, lines)
    }
}

impl Unit for u8 {
    fn zero() -> u8 {
        0
    }

    fn name() -> &'static str {
        "bytes"
    }

    fn needed(extents: &[u32; 12]) -> Result<usize, Refusal> {
        bytes_needed(extents)
    }

    fn fits(size: usize, extents: &[u32; 12]) -> Result<(), Refusal> {
        image_fits(size, extents)
    }

    fn tell_size(rt: &HostRuntime, size: usize) -> io::Result<()> {
        println!(rt; "  a byte image in {size} bytes")
    }

    fn run(
        rt: &HostRuntime,
        bytes: &mut [u8],
        extents: [u32; 12],
        lines: &[Line],
    ) -> io::Result<()> {
        let mut image = ByteImage::new(bytes, extents);
        run_section(rt, &mut image, lines)
    }
}
