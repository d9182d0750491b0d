// A row of the table of examples.
use anyhow::anyhow;
use std::fmt;
use wire::Code;

#[derive(Clone, Copy)]
pub struct Row<'a> {
    pub id: &'a str,
    pub command: u16,
    pub subcommand: u16,
    pub code: Code,
    // the points before the request
    pub initial: &'a str,
    // the data of the request, from the command on
    pub request: &'a str,
    // the data of the reply
    pub response: &'a str,
    // the points after the request
    pub after: &'a str,
    // how the row was obtained, and what of it is not served
    pub status: &'a str,
}

// The code of a name, and below the name of a code; the type is another crate's, so neither is a trait's method of it.
fn code_of(name: &str) -> Option<Code> {
    match name {
        "ascii" => Some(Code::Ascii),
        "binary" => Some(Code::Binary),
        _ => None,
    }
}

fn name_of(code: Code) -> &'static str {
    match code {
        Code::Ascii => "ascii",
        Code::Binary => "binary",
    }
}

fn hexadecimal(digits: &str) -> Option<u16> {
    u16::from_str_radix(digits, 16).ok()
}

// The row of a line whose cells are divided by tabs.
fn cells(line: &str) -> Option<Row<'_>> {
    let mut cells = line.splitn(10, '\t');
    Some(Row {
        id: cells.next()?,
        command: hexadecimal(cells.next()?)?,
        subcommand: hexadecimal(cells.next()?)?,
        code: code_of(cells.next()?)?,
        initial: cells.next()?,
        request: cells.next()?,
        response: cells.next()?,
        after: cells.next()?,
        // a cell that is not read stands between
        status: cells.nth(1)?,
    })
}

pub fn read_row(line: &str) -> anyhow::Result<Row<'_>> {
    cells(line).ok_or_else(|| anyhow!("a line is no row of the table"))
}

impl Row<'_> {
    // Whether the server has the command, its subcommand and its device.
    pub fn is_served(&self) -> bool {
        let known = self.command != 0x0406 && self.command != 0x1406;
        known
            && !self.status.ends_with("subcommand not served")
            && !self.status.ends_with("device not served")
    }
}

impl fmt::Display for Row<'_> {
    fn fmt<W: fmt::Write>(&self, f: &mut fmt::Formatter<W>) -> fmt::Result {
        let id = self.id;
        let command = self.command;
        let subcommand = self.subcommand;
        let code = name_of(self.code);
        write!(f, "{id} {command:04X}/{subcommand:04X} {code}")
    }
}
