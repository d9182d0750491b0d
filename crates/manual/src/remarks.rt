// What is to be said beside the verdict on a row. The cell of the status is prose, and each remark looks for its own words in it.
use crate::rows::Row;
use std::fmt;

#[derive(Clone, Copy)]
pub struct Remarks<'a> {
    pub row: Row<'a>,
}

// How many digits of a reply are known, and how many there are.
fn known_digits(cell: &str) -> (usize, usize) {
    let all = cell.bytes().filter(|byte| *byte != b' ').count();
    let lost = cell.bytes().filter(|byte| *byte == b'?').count();
    (all.saturating_sub(lost), all)
}

impl Remarks<'_> {
    // Whether there is nothing to remark: the row is as the manual prints it, and all of it is compared.
    pub fn is_empty(&self) -> bool {
        let row = self.row;
        row.status.starts_with("as printed")
            && !row.status.contains("not served")
            && !row.request.contains('?')
            && !row.response.contains('?')
            && !row.after.contains('?')
    }
}

impl fmt::Display for Remarks<'_> {
    fn fmt<W: fmt::Write>(&self, f: &mut fmt::Formatter<W>) -> fmt::Result {
        let row = self.row;
        if row.status.starts_with("reconstructed") {
            write!(f, "; row reconstructed")?;
        }
        if row.request.contains('?') {
            write!(f, "; its lost digits sent as 0")?;
        }
        if row.is_served() && row.response.contains('?') {
            let (known, all) = known_digits(row.response);
            write!(f, "; {known} of {all} reply digits known")?;
        }
        if row.is_served() && row.after.contains('?') {
            write!(f, "; points after it lost")?;
        }
        if row.status.contains("number notation not served") {
            write!(f, "; its octal numbers read as hexadecimal")?;
        }
        if row.status.contains("2C frame not served") {
            write!(f, "; its 2C frame sent as 3E")?;
        }
        Ok(())
    }
}
