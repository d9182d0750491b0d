// What came of the calls of a history.
use crate::asking::registers;
use crate::bench::Bench;
use crate::coded::Coded;
use crate::line::Line;
use crate::registered::Registered;
use crate::space::{or_dash, space_text};
use crate::storage::Storage;
use crate::telling::{Exchange, tell};
use crate::words::{FaultShown, Named, Point, flag_name, refusal_words};
use history::Outcome;
use memory::{Refusal, WritableMemory};
use server::Answer;
use std::io;

// Prints the answer to a frame.
fn show_answer(rt: &HostRuntime, answer: Answer, space: &[u8]) -> io::Result<()> {
    let text = space_text(rt.alloc(), space)?;
    let digits = or_dash(text.as_str());
    let taken = answer.taken;
    let length = answer.length;
    let fault = FaultShown(answer.fault);
    println!(rt; "frame taken {taken} reply {length} fault {fault} {digits}")
}

impl<M: WritableMemory + Storage> Bench<M> {
    // Tells what came of the call of a line.
    pub fn tell_outcome<'a>(
        &mut self,
        rt: &HostRuntime,
        line: &'a Line,
        outcome: &'a Outcome,
    ) -> io::Result<()> {
        match (line, outcome) {
            (Line::Frame { code, bytes, .. }, Outcome::Taken { answer, space }) => {
                let frame = Coded {
                    code: *code,
                    bytes: bytes.as_slice(),
                };
                self.tell_frame(rt, frame, *answer, space.as_slice())
            }
            (Line::Set { point, value }, Outcome::Written(written)) => {
                self.tell_set(rt, *point, *value, *written)
            }
            (Line::Open, Outcome::Window(flag)) => self.tell_open(rt, *flag),
            (Line::End, Outcome::Window(flag)) => self.tell_end(rt, *flag),
            _ => Ok(()),
        }
    }

    fn tell_frame<'a>(
        &mut self,
        rt: &HostRuntime,
        frame: Coded<'a>,
        answer: Answer,
        space: &'a [u8],
    ) -> io::Result<()> {
        show_answer(rt, answer, space)?;
        if answer.fault.is_none() && registers(frame, space.len()) {
            self.registered = Some(Registered::new(rt.alloc(), frame)?);
        }
        let size = answer.length.min(space.len());
        tell(
            rt,
            Exchange {
                frame,
                space: space.len(),
                reply: &space[..size],
                answer,
                registered: self.registered.as_ref(),
            },
        )
    }

    fn tell_set(
        &self,
        rt: &HostRuntime,
        point: Point,
        value: u16,
        written: Result<(), Refusal>,
    ) -> io::Result<()> {
        let named = Named(point);
        match written {
            Ok(()) => {
                let shown = point.holding(value);
                println!(rt; "set ok")?;
                println!(rt; "  {named} is now {shown}")
            }
            Err(refusal) => {
                let cause = refusal.number();
                let words = refusal_words(refusal);
                println!(rt; "set refused {cause}")?;
                print!(rt; "  {named} was not set to {value} ({cause}): {words}")?;
                if refusal == Refusal::Outside {
                    let extent = self.extent_of(point.device);
                    print!(rt; "; {extent}")?;
                }
                println!(rt; "")
            }
        }
    }

    // An opening and an ending differ in every text, so one function for both would take four of them.
    fn tell_open(&mut self, rt: &HostRuntime, flag: Option<bool>) -> io::Result<()> {
        match flag {
            Some(flag) => {
                self.window = true;
                let flag = flag_name(flag);
                println!(rt; "open flag {flag}")?;
                println!(rt; "  a calibration window is open: writing by frames is {flag}")
            }
            None => {
                println!(rt; "open refused")?;
                println!(rt; "  a calibration window is open already")
            }
        }
    }

    fn tell_end(&mut self, rt: &HostRuntime, flag: Option<bool>) -> io::Result<()> {
        match flag {
            Some(flag) => {
                self.window = false;
                let flag = flag_name(flag);
                println!(rt; "end flag {flag}")?;
                println!(rt;
                    "  the calibration window has ended: writing by frames is {flag}, as it was before"
                )
            }
            None => {
                println!(rt; "end refused")?;
                println!(rt; "  no calibration window is open")
            }
        }
    }
}
