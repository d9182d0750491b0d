// Frames as text: the characters of an ASCII frame, or two hexadecimal digits for each byte of a binary one.
use anyhow::anyhow;
use std::alloc::{AllocError, Global};
use wire::{Code, read_digit};

// A number of two bytes, in the order of the code.
fn number(heap: Global, code: Code, value: u16) -> Result<String, AllocError> {
    let [high, low] = value.to_be_bytes();
    match code {
        Code::Ascii => format!(in heap; "{high:02X}{low:02X}"),
        Code::Binary => format!(in heap; "{low:02X}{high:02X}"),
    }
}

// The route of every frame: network 00, PC FF, module 03FF and station 00.
fn route(code: Code) -> &'static str {
    match code {
        Code::Ascii => "00FF03FF00",
        Code::Binary => "00FFFF0300",
    }
}

// How many wire bytes a text stands for.
fn size(code: Code, text: &str) -> anyhow::Result<u16> {
    let bytes = match code {
        Code::Ascii => text.len(),
        Code::Binary => text.len() / 2,
    };
    u16::try_from(bytes).map_err(|_| anyhow!("a frame is too long"))
}

// A 3E frame of this subheader, with all that stands behind the length.
fn framed(heap: Global, code: Code, subheader: &str, rest: &str) -> anyhow::Result<String> {
    let route = route(code);
    let length = number(heap, code, size(code, rest)?)?;
    Ok(format!(in heap; "{subheader}{route}{length}{rest}")?)
}

// The data of a cell: without the blanks between bytes, and none for a dash.
fn data_in(heap: Global, code: Code, cell: &str) -> Result<String, AllocError> {
    let mut text = String::new(heap);
    if cell == "-" {
        return Ok(text);
    }
    for c in cell.chars().filter(|c| code == Code::Ascii || *c != ' ') {
        text.push(c)?;
    }
    Ok(text)
}

// The data with 0 in the place of each lost digit.
fn filled(heap: Global, data: &str) -> Result<String, AllocError> {
    data.replace(heap, '?', "0")
}

// The request frame over the data of a cell; its timer is 0010.
pub fn request(heap: Global, code: Code, cell: &str) -> anyhow::Result<String> {
    let data = data_in(heap, code, cell)?;
    let data = filled(heap, data.as_str())?;
    let timer = number(heap, code, 0x0010)?;
    let rest = format!(in heap; "{timer}{data}")?;
    framed(heap, code, "5000", rest.as_str())
}

// The reply frame with an end code over the data of a cell.
pub fn reply(heap: Global, code: Code, end: u16, cell: &str) -> anyhow::Result<String> {
    let data = data_in(heap, code, cell)?;
    let end = number(heap, code, end)?;
    let rest = format!(in heap; "{end}{data}")?;
    framed(heap, code, "D000", rest.as_str())
}

// The reply frame that refuses a command with an end code.
pub fn refusal(
    heap: Global,
    code: Code,
    end: u16,
    command: u16,
    subcommand: u16,
) -> anyhow::Result<String> {
    let route = route(code);
    let command = number(heap, code, command)?;
    let subcommand = number(heap, code, subcommand)?;
    let data = format!(in heap; "{route}{command}{subcommand}")?;
    reply(heap, code, end, data.as_str())
}

// The byte of two digits.
fn byte_of(pair: &[u8]) -> Option<u8> {
    let [high, low] = pair else {
        return None;
    };
    Some(read_digit(*high)? * 16 + read_digit(*low)?)
}

// The bytes of a text of pairs of digits.
fn paired(heap: Global, text: &str) -> anyhow::Result<Vec<u8>> {
    let mut bytes = Vec::new(heap);
    for pair in text.as_bytes().chunks(2) {
        bytes.push(byte_of(pair).ok_or_else(|| anyhow!("a byte cannot be read"))?)?;
    }
    Ok(bytes)
}

// The wire bytes of a frame.
pub fn bytes_of(heap: Global, code: Code, text: &str) -> anyhow::Result<Vec<u8>> {
    match code {
        Code::Ascii => Ok(Vec::from_slice(heap, text.as_bytes())?),
        Code::Binary => paired(heap, text),
    }
}

// The text of wire bytes.
pub fn text_of(heap: Global, code: Code, bytes: &[u8]) -> Result<String, AllocError> {
    let mut text = String::new(heap);
    for byte in bytes {
        match code {
            Code::Ascii => text.push(char::from(*byte))?,
            Code::Binary => write!(text, "{byte:02X}")?,
        }
    }
    Ok(text)
}
