ghost use Rattle.std.specs.Prelude.{◌≡◌};
ghost use Rattle.off_tree.specs.Place.{below};

/// Where a setting stands: its code and those of the groups around it, from the outermost on. Codes
/// that aren't used are 0.
#[derive(Clone, Copy, PartialEq, Eq)]
pub struct Path {
    /// How many codes there are.
    pub depth: u8,
    pub a: u8,
    pub b: u8,
    pub c: u8,
}

/// The first broken rule of a class's or an add-on's settings.
#[derive(Clone, Copy, PartialEq, Eq)]
pub enum TreeFault {
    /// No setting of this code may stand here, or it's a group in place of a leaf or the other way
    /// round.
    UnknownCode(Path),
    /// A value is too short or too long.
    Length(Path),
    /// A value is out of its range.
    Range(Path),
    /// A setting that has to stand here doesn't.
    Missing(Path),
    /// A setting that stands at most once stands a second time.
    Twice(Path),
    /// A flow has the reference of an earlier flow, or a classifier names this flow and there is
    /// none of its direction.
    FlowReference(u16),
    /// A classifier has the reference of an earlier one.
    ClassifierReference(u8),
    /// A value, the parts of a group or the whole have so many bytes, which are too many; at most
    /// the greatest `u32`.
    TooLong(u32),
}

impl Path {
    // Where no setting stands yet.
    pub(crate) const ROOT: Path = Path {
        depth: 0,
        a: 0,
        b: 0,
        c: 0,
    };

    // The path of a part with this code.
    pub(crate) fn below(self, code: u8) -> Path
        ensures { result ≡ below self code }
    {
        match self.depth {
            0 => Path {
                depth: 1,
                a: code,
                b: 0,
                c: 0,
            },
            1 => Path {
                depth: 2,
                a: self.a,
                b: code,
                c: 0,
            },
            _ => Path {
                depth: 3,
                a: self.a,
                b: self.b,
                c: code,
            },
        }
    }
}
