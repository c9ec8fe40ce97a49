//! If-sections (C99 6.10.1): what stands from `#if`, `#ifdef` or `#ifndef` to its `#endif`.

use sb_base::Line;

/// An if-section that is open.
#[derive(Clone, Copy, Debug)]
pub struct IfSection {
    /// The line of the directive that opened it.
    pub line: Line,
    /// Whether it stands in text that is read, and not in a skipped group.
    pub in_read_text: bool,
    /// Whether one of its groups was read or is being read. In a skipped group it counts as read, so that none is.
    pub is_taken: bool,
    /// Whether its `#else` came.
    pub has_else: bool,
    /// Whether its present group is read.
    pub is_reading: bool,
}

impl IfSection {
    ghost use Rattle.std.specs.Prelude.{◌≡◌};
    ghost use Rattle.c_pre.specs.Sections.{opened, passed, skipped, tried};

    /// One in text that is read, whose first group is read where its condition holds.
    pub fn opened(line: Line, holds: bool) -> Self
        ensures { result ≡ opened line holds }
    {
        IfSection {
            line,
            in_read_text: true,
            is_taken: holds,
            has_else: false,
            is_reading: holds,
        }
    }

    /// One of which a group was read, where another group begins.
    pub fn passed(self) -> Self
        ensures { result ≡ passed self }
    {
        IfSection {
            line: self.line,
            in_read_text: self.in_read_text,
            is_taken: self.is_taken,
            has_else: self.has_else,
            is_reading: false,
        }
    }

    /// One of which no group was read, behind an `#elif` whose condition holds or not.
    pub fn tried(self, holds: bool) -> Self
        ensures { result ≡ tried holds self }
    {
        IfSection {
            line: self.line,
            in_read_text: self.in_read_text,
            is_taken: holds,
            has_else: self.has_else,
            is_reading: holds,
        }
    }

    /// One in a skipped group.
    pub fn skipped(line: Line) -> Self
        ensures { result ≡ skipped line }
    {
        IfSection {
            line,
            in_read_text: false,
            is_taken: true,
            has_else: false,
            is_reading: false,
        }
    }
}

impl Default for IfSection {
    /// What stands in the unused places of a short list.
    fn default() -> Self {
        IfSection::skipped(Line::first())
    }
}
