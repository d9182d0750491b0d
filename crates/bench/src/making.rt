// The storage of a memory that a script makes, and the answer to its making.
use crate::storage::Unit;
use crate::words::Extent;
use device::DEVICES;
use memory::Refusal;
use std::alloc::{AllocError, Global};
use std::io;

// The units of a storage: those given, or zeros of just the needed size; none where an extent is too large.
pub fn units_of<U: Unit>(
    heap: Global,
    given: &Option<Vec<U>>,
    extents: &[u32; 12],
) -> Result<Vec<U>, AllocError> {
    match given {
        Some(units) => Vec::from_slice(heap, units.as_slice()),
        None => vec![in heap; U::zero(); U::needed(extents).unwrap_or(0)],
    }
}

// Prints the answer to the making of a memory over so many units.
pub fn tell_making<U: Unit>(rt: &HostRuntime, size: usize, extents: &[u32; 12]) -> io::Result<()> {
    match U::fits(size, extents) {
        Ok(()) => {
            println!(rt; "memory ok")?;
            U::tell_size(rt, size)?;
            tell_extents(rt, extents)
        }
        Err(refusal) => tell_refused(rt, refusal, U::name(), size, U::needed(extents)),
    }
}

// Tells which devices have points.
fn tell_extents(rt: &HostRuntime, extents: &[u32; 12]) -> io::Result<()> {
    for (row, points) in DEVICES.iter().zip(extents) {
        let extent = Extent {
            device: row.device,
            points: *points,
        };
        if *points > 0 {
            println!(rt; "  {extent}")?;
        }
    }
    Ok(())
}

// Prints why a memory was not made.
fn tell_refused(
    rt: &HostRuntime,
    refusal: Refusal,
    unit: &str,
    given: usize,
    needed: Result<usize, Refusal>,
) -> io::Result<()> {
    let cause = refusal.number();
    println!(rt; "memory refused {cause}")?;
    match needed {
        Ok(needed) => print!(rt;
            "  refused ({cause}): {needed} {unit} of storage are needed, and {given} given"
        ),
        Err(_) => print!(rt; "  refused ({cause}): a device has at most 65536 points"),
    }?;
    println!(rt; "; the memory has no points")
}
