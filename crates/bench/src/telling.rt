// A frame and its reply in plain words.
use crate::asking::{Ask, Asking};
use crate::coded::Coded;
use crate::faults::{tell_declined, tell_refused};
use crate::lists::Listed;
use crate::reading::tell_unread;
use crate::registered::Registered;
use crate::rows::{Row, tell_row};
use frame::{Form, Header};
use server::Answer;
use std::io;
use wire::Code;

// A call that took a frame: what was given, and what came of it.
#[derive(Clone, Copy)]
pub struct Exchange<'a> {
    pub frame: Coded<'a>,
    pub space: usize,
    // the reply alone
    pub reply: &'a [u8],
    pub answer: Answer,
    // the registration that a monitor's values are named by
    pub registered: Option<&'a Registered>,
}

// The name of a frame's form, and below that of a code.
// A function: the enum is another crate's, the text is printed in one place, and a type round it with a Display would be eight lines more.
fn form_name(form: Form) -> &'static str {
    match form {
        Form::ThreeE => "3E",
        Form::FourE => "4E",
    }
}

fn code_name(code: Code) -> &'static str {
    match code {
        Code::Binary => "binary",
        Code::Ascii => "ASCII",
    }
}

// Tells what kind of frame it is and for which station, and ends the line.
fn tell_header(rt: &HostRuntime, code: Code, header: Header) -> io::Result<()> {
    let form = form_name(header.form);
    let code = code_name(code);
    print!(rt; ", {form} frame in {code}")?;
    if header.form == Form::FourE {
        let serial = header.serial;
        print!(rt; " with serial {serial}")?;
    }
    let route = header.route;
    let network = route.network;
    let pc = route.pc;
    let module_io = route.module_io;
    let station = route.station;
    println!(rt; ", route network {network}, PC {pc}, module {module_io:04X}, station {station}")
}

// Tells a batch write with its values.
fn tell_batch_write(rt: &HostRuntime, frame: Coded<'_>, row: Row) -> io::Result<()> {
    let unit = row.unit;
    print!(rt; "writes {row}: ")?;
    tell_row(rt, row, frame.from(row.next))?;
    print!(rt; " (command 1401, {unit}s)")
}

// Tells how many accesses a list has, and which.
fn tell_counted(rt: &HostRuntime, listed: Listed<'_>) -> io::Result<()> {
    let list = listed.list;
    print!(rt; "{list}: ")?;
    listed.tell(rt)
}

// Tells a random write with its values.
fn tell_random_write(rt: &HostRuntime, listed: Listed<'_>) -> io::Result<()> {
    let unit = listed.list.unit;
    print!(rt; "writes ")?;
    listed.tell_writes(rt)?;
    print!(rt; " (command 1402, {unit}s)")
}

// Tells what is asked for.
fn tell_ask(rt: &HostRuntime, asking: Asking<'_>) -> io::Result<()> {
    match asking.ask() {
        Ask::Read(row) => {
            let unit = row.unit;
            print!(rt; "asks for {row} (command 0401, {unit}s)")
        }
        Ask::Write(row) => tell_batch_write(rt, asking.frame, row),
        Ask::ReadList(list) => {
            print!(rt; "asks for ")?;
            tell_counted(rt, asking.listed(list))?;
            print!(rt; " (command 0403)")
        }
        Ask::WriteList(list) => tell_random_write(rt, asking.listed(list)),
        Ask::Register(list) => {
            print!(rt; "registers ")?;
            tell_counted(rt, asking.listed(list))?;
            print!(rt; " (command 0801)")
        }
        Ask::Monitor => print!(rt; "monitors what is registered (command 0802)"),
        Ask::Other => {
            let command = asking.header.command;
            let subcommand = asking.header.subcommand;
            print!(rt; "asks by command {command:04X} with {subcommand:04X}")
        }
    }
}

// Tells a request: what it asks for, and by what kind of frame.
fn tell_request(rt: &HostRuntime, asking: Asking<'_>) -> io::Result<()> {
    tell_ask(rt, asking)?;
    tell_header(rt, asking.frame.code, asking.header)
}

// Tells the request of a frame that was taken from a sheet.
pub fn tell_recorded(rt: &HostRuntime, frame: Coded<'_>, space: usize) -> io::Result<()> {
    match Asking::read(frame, space) {
        Ok(asking) => tell_request(rt, asking),
        Err(_) => println!(rt; "cannot be read"),
    }
}

// How many wire bytes a reply has before its data.
fn data_start(code: Code, form: Form) -> usize {
    let bytes = match form {
        Form::ThreeE => 11,
        Form::FourE => 15,
    };
    match code {
        Code::Binary => bytes,
        Code::Ascii => 2 * bytes,
    }
}

// The list of the last registration, if there is one.
fn registered_list(registered: Option<&Registered>) -> Option<Listed<'_>> {
    let asking = Asking::read(registered?.coded(), 4096).ok()?;
    match asking.ask() {
        Ask::Register(list) => Some(asking.listed(list)),
        _ => None,
    }
}

// Tells the values that a monitor was answered, by the list of the registration.
fn tell_monitored(
    rt: &HostRuntime,
    registered: Option<&Registered>,
    data: Coded<'_>,
) -> io::Result<()> {
    match registered_list(registered) {
        Some(listed) => listed.tell_values(rt, data),
        None => tell_unread(rt, 0),
    }
}

// Tells what was answered to a request that was accepted.
fn tell_answer(rt: &HostRuntime, exchange: Exchange<'_>, asking: Asking<'_>) -> io::Result<()> {
    let code = exchange.frame.code;
    let reply = Coded {
        code,
        bytes: exchange.reply,
    };
    let data = reply.from(data_start(code, asking.header.form));
    match asking.ask() {
        Ask::Read(row) => {
            print!(rt; "  answered: ")?;
            tell_row(rt, row, data)?;
        }
        Ask::ReadList(list) => {
            print!(rt; "  answered: ")?;
            asking.listed(list).tell_values(rt, data)?;
        }
        Ask::Monitor => {
            print!(rt; "  answered: ")?;
            tell_monitored(rt, exchange.registered, data)?;
        }
        _ => print!(rt; "  done")?,
    }
    println!(rt; "")
}

// Tells bytes in ASCII as the text that they are.
pub fn tell_text(rt: &HostRuntime, code: Code, name: &str, bytes: &[u8]) -> io::Result<()> {
    if code == Code::Binary {
        return Ok(());
    }
    let mut text = String::new(rt.alloc());
    for byte in bytes {
        text.push(char::from(*byte))?;
    }
    println!(rt; "  {name} as text: {text}")
}

// Tells a request that was taken up, and its reply.
fn tell_taken(rt: &HostRuntime, exchange: Exchange<'_>, asking: Asking<'_>) -> io::Result<()> {
    print!(rt; "  ")?;
    tell_request(rt, asking)?;
    match exchange.answer.fault {
        Some(fault) => tell_refused(rt, fault)?,
        None => tell_answer(rt, exchange, asking)?,
    }
    tell_text(rt, exchange.frame.code, "reply", exchange.reply)
}

// Tells the whole exchange.
pub fn tell(rt: &HostRuntime, exchange: Exchange<'_>) -> io::Result<()> {
    let asking = Asking::read(exchange.frame, exchange.space);
    match (asking, exchange.answer.fault) {
        (Ok(asking), _) => tell_taken(rt, exchange, asking),
        (Err(_), Some(fault)) => tell_declined(rt, fault, exchange.frame.bytes.len()),
        (Err(_), None) => Ok(()),
    }
}
