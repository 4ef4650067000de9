ghost use Rattle.std.specs.Prelude.{◌≡◌};
ghost use Rattle.off_tlv.specs.Grammar.{is_code, is_group, inside_of};
ghost use Rattle.off_tlv.specs.Seen.{level_of};

/// The end marker of a file.
pub const END_MARKER: u8 = 255;

/// What a file is filled up with behind its end marker.
pub const PAD: u8 = 0;

/// The groups of a file: classifiers, service flows, and the extension field.
pub const GROUPS: [u8; 5] = [22, 23, 24, 25, 43];

/// The groups that have a group among their parts: the classifiers.
pub const CLASSIFIERS: [u8; 2] = [22, 23];

/// The group within a classifier, its IPv4 rules.
pub const CLASSIFIER_GROUP: u8 = 9;

// Where a list of settings stands.
#[derive(Clone, Copy)]
pub(crate) enum Level {
    // In the file itself.
    File,
    // Within a group of this code.
    Group(u8),
    // Within a group's part.
    Part,
}

impl Level {
    // Whether a setting may have the code.
    pub(crate) fn has(self, code: u8) -> bool
        ensures { result ≡ is_code (level_of self) code }
    {
        match self {
            Level::File => code != END_MARKER && code != PAD,
            Level::Group(_) | Level::Part => true,
        }
    }

    // Whether the settings of the code are groups.
    pub(crate) fn is_group(self, code: u8) -> bool
        ensures { result ≡ is_group (level_of self) code }
    {
        match self {
            Level::File => GROUPS.contains(&code),
            Level::Group(outer) => CLASSIFIERS.contains(&outer) && code == CLASSIFIER_GROUP,
            Level::Part => false,
        }
    }

    // Where the parts of a group of the code stand.
    pub(crate) fn inside(self, code: u8) -> Level
        ensures { level_of result ≡ inside_of (level_of self) code }
    {
        match self {
            Level::File => Level::Group(code),
            Level::Group(_) | Level::Part => Level::Part,
        }
    }
}
