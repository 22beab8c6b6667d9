//! The totals of a list.

ghost use Rattle.std.specs.Prelude.{◌≡◌, ◌+◌, ◌*◌, ◌≤◌, ◌<◌, ◌^◌, Some};

use crate::answer::Finding;
use std::fmt;

/// The counts of results, diagnostics and constants are sums over the books that the lowering accepts.
#[derive(Debug, Drop)]
pub struct Totals {
    pub answers: u64,
    pub accepted: u64,
    pub refused: u64,
    pub results: u64,
    pub diagnostics: u64,
    pub constants: u64,
    pub wrong: u64,
    // The most that so many answers add up to.
    ghost books: { accepted + refused ≡ answers },
    ghost results_bound: { results ≤ 65535 * answers },
    ghost diagnostics_bound: { diagnostics ≤ 65535 * answers },
    ghost constants_bound: { constants ≤ 65535 * answers },
    ghost wrong_bound: { wrong ≤ answers },
}

impl Totals {
    ghost use Rattle.replay.specs.Totals.{CountsOne};

    /// Nothing counted yet. By hand, since a struct with ghost fields derives no `Default`.
    pub(crate) fn new() -> Self
        ensures { result.answers ≡ 0 }
    {
        Totals {
            answers: 0,
            accepted: 0,
            refused: 0,
            results: 0,
            diagnostics: 0,
            constants: 0,
            wrong: 0,
        }
    }

    /// One answer more.
    pub(crate) fn count(&mut self, finding: Finding)
        requires { self.old.answers < 2 ^ 32 }
        ensures { CountsOne self.old finding self.new }
    {
        self.answers += 1;
        match finding.counts {
            Some(counts) => {
                self.accepted += 1;
                self.results += u64::from(counts.results);
                self.diagnostics += u64::from(counts.diagnostics);
                self.constants += u64::from(counts.constants);
            }
            None => self.refused += 1,
        }
        self.wrong += u64::from(!finding.right);
    }
}

impl fmt::Display for Totals {
    ghost use Rattle.replay.specs.Totals.{lines_of};

    ghost output = { λ totals. Some (lines_of totals) };

    fn fmt<W: fmt::Write>(&self, f: &mut fmt::Formatter<W>) -> fmt::Result {
        write!(
            f,
            "answers {}\naccepted {}\nrefused {}\nresults {}\ndiagnostics {}\nconstants {}\nwrong {}\n",
            self.answers,
            self.accepted,
            self.refused,
            self.results,
            self.diagnostics,
            self.constants,
            self.wrong
        )
    }
}
