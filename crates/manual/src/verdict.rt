// What came of a row.
use std::fmt;

#[derive(Drop)]
pub enum Verdict {
    // reply and points are those of the row
    Same,
    // the row is not served, and was refused with this end code
    Refused(u16),
    // something else came
    Differs { expected: String, got: String },
}

impl fmt::Display for Verdict {
    fn fmt<W: fmt::Write>(&self, f: &mut fmt::Formatter<W>) -> fmt::Result {
        match self {
            Verdict::Same => write!(f, "as in the manual"),
            Verdict::Refused(end) => write!(f, "not served, refused with {end:04X}"),
            Verdict::Differs { expected, got } => {
                write!(f, "DIFFERS: expected {expected} got {got}")
            }
        }
    }
}

// How many rows came out how.
#[derive(Clone, Copy, Default)]
pub struct Counts {
    same: u32,
    // of those, the ones with nothing to remark
    plain: u32,
    refused: u32,
    differ: u32,
}

impl Counts {
    pub fn add(&mut self, verdict: &Verdict, is_plain: bool) {
        match verdict {
            Verdict::Same => {
                self.same = self.same.saturating_add(1);
                self.plain = self.plain.saturating_add(u32::from(is_plain));
            }
            Verdict::Refused(_) => self.refused = self.refused.saturating_add(1),
            Verdict::Differs { .. } => self.differ = self.differ.saturating_add(1),
        }
    }
}

impl fmt::Display for Counts {
    fn fmt<W: fmt::Write>(&self, f: &mut fmt::Formatter<W>) -> fmt::Result {
        let same = self.same;
        let plain = self.plain;
        let refused = self.refused;
        let differ = self.differ;
        write!(
            f,
            "{same} as in the manual, {plain} of them without a remark; "
        )?;
        write!(f, "{refused} not served and refused; {differ} differ")
    }
}
