//! Which settings a class or an add-on may have: this project's profile of CM-SP-MULPIv3.1, annex
//! C.
ghost use Rattle.std.specs.Prelude.{◌≡◌, ◌==◌};
ghost use Rattle.off_tree.specs.Table.{table_of, rule_of, rule_with, level_inside};
ghost use Rattle.off_tree.specs.Table.{is_single, is_needed};

/// How often a setting stands among its neighbours.
#[derive(Clone, Copy, PartialEq, Eq)]
pub enum Times {
    Any,
    AtMostOnce,
    Once,
    AtLeastOnce,
}

/// What a value has to be.
#[derive(Clone, Copy, PartialEq, Eq)]
pub enum Range {
    Any,
    /// A number of one or two bytes, big-endian, with both bounds in the range.
    Number { least: u16, most: u16 },
    /// Bytes other than 0, and a 0 at the end.
    Name,
}

/// A leaf with the bounds of its value's length, or a group.
#[derive(Clone, Copy, PartialEq, Eq)]
pub enum Form {
    Leaf {
        shortest: u8,
        longest: u8,
        range: Range,
    },
    Group,
}

/// A line of a table.
#[derive(Clone, Copy, PartialEq, Eq)]
pub struct Rule {
    pub code: u8,
    pub times: Times,
    pub form: Form,
}

// Whose settings they are.
#[derive(Clone, Copy, PartialEq, Eq)]
pub enum Kind {
    Class,
    AddOn,
}

// Where a list of settings stands.
#[derive(Clone, Copy, PartialEq, Eq)]
pub enum Level {
    Top(Kind),
    Classifier(Kind),
    UpstreamFlow,
    DownstreamFlow,
    Ip,
    Extension,
}

// A line for a leaf whose value has a length, or one of two lengths.
macro_rules! leaf {
    ($code:literal, $times:ident, $length:literal) => {
        leaf!($code, $times, $length, Range::Any)
    };
    ($code:literal, $times:ident, $length:literal, $range:expr) => {
        leaf!($code, $times, $length, $length, $range)
    };
    ($code:literal, $times:ident, $shortest:literal, $longest:literal, $range:expr) => {
        Rule {
            code: $code,
            times: Times::$times,
            form: Form::Leaf {
                shortest: $shortest,
                longest: $longest,
                range: $range,
            },
        }
    };
}

// A line for a group.
macro_rules! group {
    ($code:literal, $times:ident) => {
        Rule {
            code: $code,
            times: Times::$times,
            form: Form::Group,
        }
    };
}

macro_rules! within {
    ($least:literal, $most:literal) => {
        Range::Number {
            least: $least,
            most: $most,
        }
    };
}

/// The settings of a class.
pub const CLASS: [Rule; 9] = [
    leaf!(1, AtMostOnce, 4),
    leaf!(2, AtMostOnce, 1),
    group!(22, Any),
    group!(23, Any),
    group!(24, AtLeastOnce),
    group!(25, AtLeastOnce),
    leaf!(28, AtMostOnce, 2),
    leaf!(29, AtMostOnce, 1, within!(0, 1)),
    group!(43, Any),
];

/// The settings of an add-on.
pub const ADD_ON: [Rule; 5] = [
    group!(22, Any),
    group!(23, Any),
    group!(24, Any),
    group!(25, Any),
    group!(43, Any),
];

/// The parts of an upstream service flow, setting 24.
pub const UPSTREAM_FLOW: [Rule; 17] = [
    leaf!(1, Once, 2, within!(1, 255)),
    leaf!(4, AtMostOnce, 2, 16, Range::Name),
    leaf!(6, Once, 1, within!(1, 7)),
    leaf!(7, AtMostOnce, 1, within!(0, 7)),
    leaf!(8, AtMostOnce, 4),
    leaf!(9, AtMostOnce, 4),
    leaf!(10, AtMostOnce, 4),
    leaf!(11, AtMostOnce, 2),
    leaf!(12, AtMostOnce, 2),
    leaf!(13, AtMostOnce, 2),
    leaf!(15, AtMostOnce, 1, within!(1, 7)),
    leaf!(16, AtMostOnce, 4),
    leaf!(19, AtMostOnce, 2),
    leaf!(20, AtMostOnce, 4),
    leaf!(21, AtMostOnce, 4),
    leaf!(22, AtMostOnce, 1),
    leaf!(27, AtMostOnce, 4),
];

/// The parts of a downstream service flow, setting 25.
pub const DOWNSTREAM_FLOW: [Rule; 12] = [
    leaf!(1, Once, 2, within!(1, 255)),
    leaf!(4, AtMostOnce, 2, 16, Range::Name),
    leaf!(6, Once, 1, within!(1, 7)),
    leaf!(7, AtMostOnce, 1, within!(0, 7)),
    leaf!(8, AtMostOnce, 4),
    leaf!(9, AtMostOnce, 4),
    leaf!(10, AtMostOnce, 4),
    leaf!(11, AtMostOnce, 2),
    leaf!(12, AtMostOnce, 2),
    leaf!(13, AtMostOnce, 2),
    leaf!(14, AtMostOnce, 4),
    leaf!(27, AtMostOnce, 4),
];

/// The parts of a class's classifier, settings 22 and 23.
pub const CLASS_CLASSIFIER: [Rule; 5] = [
    leaf!(1, Once, 1, within!(1, 127)),
    leaf!(3, Once, 2, within!(1, 255)),
    leaf!(5, AtMostOnce, 1),
    leaf!(6, AtMostOnce, 1, within!(0, 1)),
    group!(9, AtMostOnce),
];

/// The parts of an add-on's classifier.
pub const ADD_ON_CLASSIFIER: [Rule; 5] = [
    leaf!(1, Once, 1, within!(0, 15)),
    leaf!(3, Once, 2, within!(1, 255)),
    leaf!(5, AtMostOnce, 1),
    leaf!(6, AtMostOnce, 1, within!(0, 1)),
    group!(9, AtMostOnce),
];

/// The parts of a classifier's IPv4 group.
pub const IP: [Rule; 10] = [
    leaf!(1, AtMostOnce, 3),
    leaf!(2, AtMostOnce, 2),
    leaf!(3, AtMostOnce, 4),
    leaf!(4, AtMostOnce, 4),
    leaf!(5, AtMostOnce, 4),
    leaf!(6, AtMostOnce, 4),
    leaf!(7, AtMostOnce, 2),
    leaf!(8, AtMostOnce, 2),
    leaf!(9, AtMostOnce, 2),
    leaf!(10, AtMostOnce, 2),
];

/// The part of an extension field, setting 43, that has to stand there: the vendor's identifier.
pub const EXTENSION: [Rule; 1] = [leaf!(8, Once, 3)];

/// Every other part of an extension field.
pub const OTHER_EXTENSION: Rule = leaf!(0, Any, 0, 254, Range::Any);

impl Level {
    // The table of the settings that may stand here.
    #[tactic(auto, unfolding(crate::specs::Table::table_of))]
    pub(crate) fn table(self) -> &'static [Rule]
        ensures { result.now ≡ table_of self }
    {
        match self {
            Level::Top(Kind::Class) => &CLASS,
            Level::Top(Kind::AddOn) => &ADD_ON,
            Level::Classifier(Kind::Class) => &CLASS_CLASSIFIER,
            Level::Classifier(Kind::AddOn) => &ADD_ON_CLASSIFIER,
            Level::UpstreamFlow => &UPSTREAM_FLOW,
            Level::DownstreamFlow => &DOWNSTREAM_FLOW,
            Level::Ip => &IP,
            Level::Extension => &EXTENSION,
        }
    }

    // The line for a code.
    pub(crate) fn rule(self, code: u8) -> Option<Rule>
        ensures { result ≡ rule_of self code }
    {
        match rule_with(code, self.table()) {
            Some(rule) => Some(rule),
            None => match self {
                Level::Extension => Some(OTHER_EXTENSION),
                _ => None,
            },
        }
    }

    // Where the parts of a group of the code stand.
    pub(crate) fn inside(self, code: u8) -> Level
        ensures { result ≡ level_inside self code }
    {
        match self {
            Level::Top(kind) => match code {
                22 | 23 => Level::Classifier(kind),
                24 => Level::UpstreamFlow,
                25 => Level::DownstreamFlow,
                _ => Level::Extension,
            },
            _ => Level::Ip,
        }
    }
}

fn rule_with(code: u8, table: &[Rule]) -> Option<Rule>
    ensures { result ≡ rule_with code table.now }
{
    for rule in table {
        if rule.code == code {
            return Some(*rule);
        }
    }
    None
}

impl Times {
    // Whether such a setting may not stand twice.
    pub(crate) fn is_single(self) -> bool
        ensures { result ≡ is_single self }
    {
        match self {
            Times::AtMostOnce | Times::Once => true,
            Times::Any | Times::AtLeastOnce => false,
        }
    }

    // Whether such a setting has to stand.
    pub(crate) fn is_needed(self) -> bool
        ensures { result ≡ is_needed self }
    {
        match self {
            Times::Once | Times::AtLeastOnce => true,
            Times::Any | Times::AtMostOnce => false,
        }
    }
}
