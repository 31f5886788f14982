// A refusal as the programs print it.
use refusals::Refusal;
use std::fmt;

// A refusal by a call: its number; its place is 0, and is printed only if it is not.
#[derive(Clone, Copy)]
pub struct ByCall(pub Refusal);

// A refusal of a file: its number and its place.
#[derive(Clone, Copy)]
pub struct OfFile(pub Refusal);

impl fmt::Display for ByCall {
    ghost use Rattle.std.specs.Prelude.{Some};
    ghost use Rattle.cases.specs.Printed.{by_call};

    ghost output = { λ r. Some (by_call r.0) };

    fn fmt<W: fmt::Write>(&self, f: &mut fmt::Formatter<W>) -> fmt::Result {
        let refused = self.0;
        write!(f, "{}", u32::from(refused.no))?;
        if refused.place != 0 {
            write!(f, " {}", refused.place)?;
        }
        Ok(())
    }
}

impl fmt::Display for OfFile {
    ghost use Rattle.std.specs.Prelude.{Some};
    ghost use Rattle.cases.specs.Printed.{of_file};

    ghost output = { λ r. Some (of_file r.0) };

    fn fmt<W: fmt::Write>(&self, f: &mut fmt::Formatter<W>) -> fmt::Result {
        let refused = self.0;
        write!(f, "refused {} {}", u32::from(refused.no), refused.place)
    }
}
