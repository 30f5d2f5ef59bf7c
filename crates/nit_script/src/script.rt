ghost use Rattle.std.specs.Prelude.{◌≡◌, ◌≤◌, length};
ghost use Rattle.nit_script.specs.Terms.{AllByRecursion, FitsInputLine, FitsLine, most_lines};

use crate::line::{InputLine, Line};
use std::marker::Model;

/// A client's script, seen as the list of its lines: at most 65,536, each within the grammar.
#[derive(Debug, Drop)]
pub struct Client {
    /// The lines, in order.
    pub lines: Vec<Line>,
}

impl Model for Client {
    ghost use Rattle.std.specs.Prelude.{◌≤◌, List, length};
    ghost use Rattle.std.specs.List.{AllByRecursion};
    ghost use Rattle.nit_script.specs.declared.line.Line.{Line};
    ghost use Rattle.nit_script.specs.Spelling.{FitsLine};
    ghost use Rattle.nit_script.specs.Grammar.{FitsScript};

    ghost Value = { List Line };

    ghost view = { λ c. c.lines.items };

    ghost invariant = { λ c. FitsScript FitsLine c.lines.items };
}

impl Client {
    /// The lines, in order.
    pub fn lines(&self) -> &[Line]
        ensures value { result.now ≡ self.now }
        ensures fits { AllByRecursion FitsLine result.now }
        ensures length { length result.now ≤ most_lines }
    {
        &self.lines
    }
}

/// The user's script, seen as the list of its lines: at most 65,536, each within the grammar.
#[derive(Debug, Drop)]
pub struct Input {
    /// The lines, in order.
    pub lines: Vec<InputLine>,
}

impl Model for Input {
    ghost use Rattle.std.specs.Prelude.{◌≤◌, List, length};
    ghost use Rattle.std.specs.List.{AllByRecursion};
    ghost use Rattle.nit_script.specs.declared.line.InputLine.{InputLine};
    ghost use Rattle.nit_script.specs.Spelling.{FitsInputLine};
    ghost use Rattle.nit_script.specs.Grammar.{FitsScript};

    ghost Value = { List InputLine };

    ghost view = { λ i. i.lines.items };

    ghost invariant = { λ i. FitsScript FitsInputLine i.lines.items };
}

impl Input {
    /// The lines, in order.
    pub fn lines(&self) -> &[InputLine]
        ensures value { result.now ≡ self.now }
        ensures fits { AllByRecursion FitsInputLine result.now }
        ensures length { length result.now ≤ most_lines }
    {
        &self.lines
    }
}
