// Worked examples: frames and replies written out by hand, computed from the definitions together.
#![tactic(auto)]

ghost use Rattle.std.specs.Prelude.{◌≡◌, true};
ghost use Rattle.examples.specs.Worked.{worked};
ghost use Rattle.examples.specs.Runs.{runs_worked};

// Every worked example comes out as it was worked on paper.
pub fn worked_examples() -> u8
    ensures { worked ≡ true }
{
    0
}

// So does every worked run of a sheet.
pub fn worked_runs() -> u8
    ensures { runs_worked ≡ true }
{
    0
}

#[cfg(test)]
mod frames;
#[cfg(test)]
mod histories;
#[cfg(test)]
mod memories;
#[cfg(test)]
mod registrations;
#[cfg(test)]
mod serving;
#[cfg(test)]
mod windows;
