//! How many lines of a trace are of a kind.

ghost use Rattle.std.specs.Prelude.{◌≡◌, ◌∷◌, []};
ghost use Rattle.tk_gen.specs.Counts.{Fits, counted_on, nothing_counted};

use tk_types::Line;

/// How often a call returned, a task began to wait, a tick passed, and a request ended.
#[derive(Clone, Copy, Debug, PartialEq, Eq)]
pub(crate) struct Counts {
    pub(crate) calls: u32,
    pub(crate) waits: u32,
    pub(crate) ticks: u32,
    pub(crate) endings: u32,
}

impl Counts {
    /// The counts of no line.
    pub(crate) fn new() -> Counts
        ensures { result ≡ nothing_counted }
    {
        Counts {
            calls: 0,
            waits: 0,
            ticks: 0,
            endings: 0,
        }
    }

    /// Counts a line.
    fn add_line(&mut self, line: &Line)
        requires { Fits (counted_on self.old (line.now ∷ [])) }
        ensures { self.new ≡ counted_on self.old (line.now ∷ []) }
    {
        match line {
            Line::Returned { .. } => self.calls += 1,
            Line::Blocked { .. } => self.waits += 1,
            Line::Tick { .. } => self.ticks += 1,
            Line::Ending { .. } => self.endings += 1,
            _ => {}
        }
    }

    /// Counts lines.
    pub(crate) fn add(&mut self, lines: &[Line])
        requires { Fits (counted_on self.old lines.now) }
        ensures { self.new ≡ counted_on self.old lines.now }
    {
        'counting: for line in lines {
            self.add_line(line);
        }
    }
}
