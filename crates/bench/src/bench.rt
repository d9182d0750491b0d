// The bench: a server over a memory with its lock, and what stands between the calls of a script.
use crate::line::Line;
use crate::registered::Registered;
use crate::space::or_dash;
use crate::storage::Storage;
use crate::words::{Extent, Named, Point, flag_name};
use device::{DEVICES, Device};
use memory::{Locked, Locks, Range, ReadableMemory, Refusal, WritableMemory};
use server::{Registration, Server, Settings};
use std::io;

// Tells whether a range was locked.
fn tell_lock(rt: &HostRuntime, range: Range, answer: Result<(), Refusal>) -> io::Result<()> {
    let device = range.device;
    let first = Named(Point {
        device,
        number: range.first,
    });
    let last = Named(Point {
        device,
        number: range.last,
    });
    match answer {
        Ok(()) => {
            println!(rt; "lock ok")?;
            println!(rt; "  {first} to {last} are locked against writing")
        }
        Err(refusal) => {
            let cause = refusal.number();
            let words = if range.last < range.first {
                "the last number lies before the first"
            } else {
                "sixteen ranges are locked already"
            };
            println!(rt; "lock refused {cause}")?;
            println!(rt; "  {first} to {last} were not locked ({cause}): {words}")
        }
    }
}

#[derive(Drop)]
pub struct Bench<M> {
    pub server: Server<Locked<M>>,
    // whether a calibration window is open
    pub window: bool,
    // the last registration that was accepted, if there is one
    pub registered: Option<Registered>,
}

impl<M: WritableMemory + Drop> Bench<M> {
    // The same bench over the same memory, made anew with one range of locks more, if it can be locked.
    pub fn lock(self, rt: &HostRuntime, range: Range) -> io::Result<Bench<M>> {
        let Bench {
            server,
            window,
            registered,
        } = self;
        let Server {
            memory,
            settings,
            registration,
        } = server;
        let (below, mut locks) = memory.into_parts();
        let answer = locks.add(range);
        tell_lock(rt, range, answer)?;
        let server = Server {
            memory: Locked::new(below, locks),
            settings,
            registration,
        };
        Ok(Bench {
            server,
            window,
            registered,
        })
    }
}

impl<M: WritableMemory + Storage> Bench<M> {
    // A bench over a memory: no locks, writing off, nothing registered, no window.
    pub fn new(memory: M) -> Bench<M> {
        Bench {
            server: Server::new(Locked::new(memory, Locks::new()), false),
            window: false,
            registered: None,
        }
    }

    // Carries out a line that is no call of a history, locks no points and makes no memory.
    pub fn carry_out(&mut self, rt: &HostRuntime, line: &Line) -> io::Result<()> {
        match line {
            Line::Server(write_flag) => self.set_up(rt, *write_flag),
            Line::Look(point) => self.look(rt, *point),
            Line::Run {
                code,
                cancel,
                space,
                sheet,
            } => self.run(rt, *code, *cancel, space.bytes, sheet.as_slice()),
            Line::Final => self.show(rt),
            _ => Ok(()),
        }
    }

    // A new server over the same memory: nothing registered, no window.
    pub fn set_up(&mut self, rt: &HostRuntime, write_flag: bool) -> io::Result<()> {
        self.server.settings = Settings { write_flag };
        self.server.registration = Registration::new();
        self.registered = None;
        let flag = flag_name(write_flag);
        println!(rt; "server ok")?;
        println!(rt;
            "  a server stands over the memory: writing by frames is {flag}, and nothing is registered"
        )?;
        if self.window {
            self.window = false;
            println!(rt; "  the calibration window of the server before is gone")?;
        }
        Ok(())
    }

    pub fn extent_of(&self, device: Device) -> Extent {
        Extent {
            device,
            points: self.server.memory.extent(device),
        }
    }

    pub fn look(&self, rt: &HostRuntime, point: Point) -> io::Result<()> {
        let device = point.device;
        let named = Named(point);
        match self.server.memory.read(device, point.number) {
            None => {
                let extent = self.extent_of(device);
                println!(rt; "look outside")?;
                println!(rt; "  {named} lies outside: {extent}")
            }
            Some(value) => {
                let shown = point.holding(value);
                if self.server.memory.is_open(device, point.number) {
                    println!(rt; "look {value} open")?;
                    println!(rt; "  {named} holds {shown} and is open to writing")
                } else {
                    println!(rt; "look {value} closed")?;
                    println!(rt; "  {named} holds {shown} and is locked against writing")
                }
            }
        }
    }

    // The write flag as frames find it: on in a window, else as it was set up.
    fn flag(&self) -> bool {
        self.window || self.server.settings.write_flag
    }

    pub fn show(&self, rt: &HostRuntime) -> io::Result<()> {
        let text = self.server.memory.below().digits(rt.alloc())?;
        let digits = or_dash(text.as_str());
        let flag = flag_name(self.flag());
        let why = if self.window {
            " (a calibration window is open)"
        } else {
            ""
        };
        match self.server.registration.count() {
            None => {
                println!(rt; "final flag {flag} registered none storage {digits}")?;
                println!(rt; "  writing by frames is {flag}{why}; nothing is registered")
            }
            Some(count) => {
                println!(rt; "final flag {flag} registered {count} storage {digits}")?;
                println!(rt; "  writing by frames is {flag}{why}; {count} accesses are registered")
            }
        }?;
        for row in &DEVICES {
            self.tell_points(rt, row.device)?;
        }
        Ok(())
    }

    // Tells the points of a device that are not 0, the first 32 of them at most.
    fn tell_points(&self, rt: &HostRuntime, device: Device) -> io::Result<()> {
        // Counts the points that are printed, of which the end of the line has to know too.
        let mut told = 0u32;
        for number in 0..self.server.memory.extent(device) {
            let value = self.server.memory.read(device, number).unwrap_or(0);
            if value != 0 {
                let point = Point { device, number };
                let shown = point.holding(value);
                if told >= 32 {
                    return println!(rt; ", and more");
                }
                let lead = if told == 0 { "  not 0: " } else { ", " };
                print!(rt; "{lead}{point} = {shown}")?;
                told += 1;
            }
        }
        if told > 0 {
            println!(rt; "")?;
        }
        Ok(())
    }
}
