//! The generated text, as a source.
ghost use Rattle.std.specs.Prelude.{◌≡◌, Some};
ghost use Rattle.std.specs.Result.{result_unwrap_or};
ghost use Rattle.std.specs.Io.{ReadsAtMost};
ghost use Rattle.std.specs.Io.KnownBytes.{ReadConsumes};
ghost use Rattle.ob_gen.specs.Generated.{generated};
ghost use Rattle.ob_io.specs.Causes.{HasCause};

use crate::lines::Lines;
use ob_base::Failed;
use ob_io::Source;
use ob_print::Line;
use std::marker::Model;

/// A source of the generated text, which holds one line of it at a time and takes no memory. A read gives what is left
/// of a line, at most, and none fails.
#[derive(Drop)]
pub struct Generated {
    lines: Lines,
    line: Line,
    at: usize,
    gave: usize,
}

impl Model for Generated {
    ghost use Rattle.std.specs.Prelude.{◌≤◌, ◌++◌, drop, length};
    ghost use Rattle.std.specs.List.{concat};
    ghost use Rattle.ob_gen.specs.Generated.{GeneratedState, lines_left};

    ghost Value = { GeneratedState };

    ghost view = { λ g. record { left = drop g.at g.line ++ concat (lines_left g.lines.number g.lines.rows g.lines.passed); gave = g.gave } };

    ghost invariant = { λ g. g.at ≤ length g.line };
}

impl Generated {
    /// The text whose sequence begins after `x`, and whose table has `n` rows.
    pub fn new(x: u64, n: u32) -> Generated
        ensures { result ≡ record { left = generated x n; gave = 0 } }
    {
        Generated {
            lines: Lines::new(x, n),
            line: Line::new(b""),
            at: 0,
            gave: 0,
        }
    }
}

impl Source for Generated {
    ghost left = { λ g. Some g.left };

    ghost gave = { λ g. g.gave };

    ghost faults = { λ _. 0 };

    fn read(&mut self, buf: &mut [u8]) -> Result<usize, Failed>
        ensures bound { ReadsAtMost result buf.new }
        ensures bytes { ReadConsumes (Some self.old.left) (Some self.new.left) result buf.new }
        ensures gave { self.new.gave ≡ result_unwrap_or result 0 }
        ensures cause { HasCause 0 0 result }
    {
        if self.at == self.line.as_bytes().len() {
            let Some(line) = self.lines.next_line() else {
                self.gave = 0;
                return Ok(0);
            };
            self.line = line;
            self.at = 0;
        }
        let left = &self.line.as_bytes()[self.at..];
        let n = buf.len().min(left.len());
        buf[..n].copy_from_slice(&left[..n]);
        self.at += n;
        self.gave = n;
        Ok(n)
    }
}
