ghost use Rattle.std.specs.Prelude.{◌≡◌, ◌<◌, ◌≤◌, [], ◌∷◌, Some, ℕ, length, take, option_map};
ghost use Rattle.std.specs.Prelude.{slice_get};
ghost use Rattle.off_base.specs.Tree.{Tree, code_of};
ghost use Rattle.off_base.specs.Setting.{tree_of};
ghost use Rattle.off_tree.specs.Fault.{contains, leaf_value, value_in, part_value, pair, single};
ghost use Rattle.off_tree.specs.Fault.{flow_number, classifier_number, named_flow, is_classifier};
ghost use Rattle.off_tree.specs.Fault.{both_directions, numbers, first_repeat};
ghost use Rattle.off_tree.specs.Fault.{lost_flow, first_lost};
ghost use Rattle.off_tree.specs.Reference.{directions_of, repeat_here, is_same, Marks};

use crate::marks::{MARKS, as_pair, mark};
use crate::shapes::code_of;
use off_base::{Setting, Settings};

const UPSTREAM: u8 = 24;

const DOWNSTREAM: u8 = 25;

// The service flows of some directions.
#[derive(Clone, Copy)]
pub(crate) enum Flows {
    Both,
    Of(u8),
}

impl Flows {
    fn has(self, code: u8) -> bool
        ensures { result ≡ contains code (directions_of self) }
    {
        match self {
            Flows::Both => UPSTREAM == code || DOWNSTREAM == code,
            Flows::Of(direction) => direction == code,
        }
    }

    // The reference of a setting that is such a flow.
    fn number(self, setting: &Setting) -> Option<u16>
        ensures { result ≡ flow_number (directions_of self) (tree_of setting.now) }
    {
        if self.has(code_of(setting)) {
            pair_in(1, setting)
        } else {
            None
        }
    }
}

// The first reference of a flow that stands a second time.
pub(crate) fn repeated_flow(settings: &Settings) -> Option<u16>
    ensures { result ≡ first_repeat [] (numbers (flow_number both_directions) settings.now) }
{
    let mut met = [false; MARKS];
    for place in 0..settings.len() {
        if let Some(number) = repeats_flow(settings, place, &met) {
            return Some(number);
        }
        mark(&mut met, Flows::Both.number(settings.get(place)));
    }
    None
}

fn repeats_flow(settings: &Settings, place: usize, met: &[bool; 256]) -> Option<u16>
    requires within { place < length settings.now }
    requires marked { Marks met.now
        (numbers (flow_number both_directions) (take place settings.now)) }
    ensures { (t : Tree) → slice_get settings.now place ≡ Some t
        → result ≡ repeat_here (numbers (flow_number both_directions) (take place settings.now))
        (flow_number both_directions t) }
{
    let Some(number) = Flows::Both.number(settings.get(place)) else {
        return None;
    };
    if is_met(Flows::Both, settings, place, number, met) {
        Some(number)
    } else {
        None
    }
}

// Which references below 256 the flows have.
fn flows_met(flows: Flows, settings: &Settings) -> [bool; 256]
    ensures { Marks result (numbers (flow_number (directions_of flows)) settings.now) }
{
    let mut met = [false; MARKS];
    for place in 0..settings.len() {
        mark(&mut met, flows.number(settings.get(place)));
    }
    met
}

// Whether a flow before a place has the reference. The flows are looked at once more only for one
// that is too great to be marked.
fn is_met(flows: Flows, settings: &Settings, end: usize, number: u16, met: &[bool; 256]) -> bool
    requires within { end ≤ length settings.now }
    requires marked { Marks met.now
        (numbers (flow_number (directions_of flows)) (take end settings.now)) }
    ensures { result ≡ contains number
        (numbers (flow_number (directions_of flows)) (take end settings.now)) }
{
    let mark = usize::from(number);
    if mark < MARKS {
        met[mark]
    } else {
        has_flow(flows, settings, end, number)
    }
}

// Whether a flow before a place has the reference.
fn has_flow(flows: Flows, settings: &Settings, end: usize, number: u16) -> bool
    requires { end ≤ length settings.now }
    ensures { result ≡ contains number
        (numbers (flow_number (directions_of flows)) (take end settings.now)) }
{
    for place in 0..end {
        if is_same(flows.number(settings.get(place)), number) {
            return true;
        }
    }
    false
}

fn is_same(found: Option<u16>, number: u16) -> bool
    ensures { result ≡ is_same number found }
{
    match found {
        Some(other) => other == number,
        None => false,
    }
}

// The first flow that a classifier names and that isn't there in its direction.
pub(crate) fn lost_flow(settings: &Settings) -> Option<u16>
    ensures { result ≡ first_lost settings.now settings.now }
{
    let upstream = flows_met(Flows::Of(UPSTREAM), settings);
    let downstream = flows_met(Flows::Of(DOWNSTREAM), settings);
    for place in 0..settings.len() {
        let setting = settings.get(place);
        if let Some(number) = loses_flow(settings, setting, &upstream, &downstream) {
            return Some(number);
        }
    }
    None
}

fn loses_flow(
    settings: &Settings,
    setting: &Setting,
    upstream: &[bool; 256],
    downstream: &[bool; 256],
) -> Option<u16>
    requires up { Marks upstream.now (numbers (flow_number (24 ∷ [])) settings.now) }
    requires down { Marks downstream.now (numbers (flow_number (25 ∷ [])) settings.now) }
    ensures { result ≡ lost_flow settings.now (tree_of setting.now) }
{
    let Some(number) = named_flow(setting) else {
        return None;
    };
    let is_there = if code_of(setting) == 22 {
        is_any(UPSTREAM, settings, number, upstream)
    } else {
        is_any(DOWNSTREAM, settings, number, downstream)
    };
    if is_there { None } else { Some(number) }
}

// Whether any flow of the direction has the reference.
fn is_any(direction: u8, settings: &Settings, number: u16, met: &[bool; 256]) -> bool
    requires { Marks met.now (numbers (flow_number (direction ∷ [])) settings.now) }
    ensures { result ≡ contains number (numbers (flow_number (direction ∷ [])) settings.now) }
{
    is_met(Flows::Of(direction), settings, settings.len(), number, met)
}

// The flow that a classifier names.
fn named_flow(setting: &Setting) -> Option<u16>
    ensures { result ≡ named_flow (tree_of setting.now) }
{
    if is_classifier(setting) {
        pair_in(3, setting)
    } else {
        None
    }
}

fn is_classifier(setting: &Setting) -> bool
    ensures { result ≡ is_classifier (code_of (tree_of setting.now)) }
{
    let code = code_of(setting);
    code == 22 || code == 23
}

// The first reference of a classifier that stands a second time.
pub(crate) fn repeated_classifier(settings: &Settings) -> Option<u8>
    ensures { result ≡ first_repeat [] (numbers classifier_number settings.now) }
{
    let mut met = [false; MARKS];
    for place in 0..settings.len() {
        if let Some(number) = repeats_classifier(settings, place, &met) {
            return Some(number);
        }
        mark(&mut met, as_pair(classifier_number(settings.get(place))));
    }
    None
}

fn repeats_classifier(settings: &Settings, place: usize, met: &[bool; 256]) -> Option<u8>
    requires within { place < length settings.now }
    requires marked { Marks met.now (numbers classifier_number (take place settings.now)) }
    ensures { (t : Tree) → slice_get settings.now place ≡ Some t
        → result ≡ repeat_here (numbers classifier_number (take place settings.now))
        (classifier_number t) }
{
    let Some(number) = classifier_number(settings.get(place)) else {
        return None;
    };
    if met[usize::from(number)] {
        Some(number)
    } else {
        None
    }
}

// The reference of a classifier.
fn classifier_number(setting: &Setting) -> Option<u8>
    ensures { result ≡ classifier_number (tree_of setting.now) }
{
    if is_classifier(setting) {
        single_in(1, setting)
    } else {
        None
    }
}

// The number of two bytes in a part.
fn pair_in(part: u8, setting: &Setting) -> Option<u16>
    ensures { result ≡ pair (part_value part (tree_of setting.now)) }
{
    let Some(value) = part_value(part, setting) else {
        return None;
    };
    match value {
        [a, b] => Some(u16::from(*a) * 256 + u16::from(*b)),
        _ => None,
    }
}

// The number of one byte in a part.
fn single_in(part: u8, setting: &Setting) -> Option<u8>
    ensures { result ≡ single (part_value part (tree_of setting.now)) }
{
    let Some(value) = part_value(part, setting) else {
        return None;
    };
    match value {
        [a] => Some(*a),
        _ => None,
    }
}

// The value of the first leaf of a code among a group's parts.
fn part_value(part: u8, setting: &Setting) -> Option<&[u8]>
    ensures { option_map (λ value. value.now) result ≡ part_value part (tree_of setting.now) }
{
    match setting {
        Setting::Leaf { .. } => None,
        Setting::Group { parts, .. } => value_in(part, parts),
    }
}

fn value_in(part: u8, parts: &Settings) -> Option<&[u8]>
    ensures { option_map (λ value. value.now) result ≡ value_in part parts.now }
{
    for place in 0..parts.len() {
        if let Some(value) = leaf_value(part, parts.get(place)) {
            return Some(value);
        }
    }
    None
}

fn leaf_value(part: u8, setting: &Setting) -> Option<&[u8]>
    ensures { option_map (λ value. value.now) result ≡ leaf_value part (tree_of setting.now) }
{
    match setting {
        Setting::Leaf { code, value } => {
            if *code == part {
                Some(value.as_slice())
            } else {
                None
            }
        }
        Setting::Group { .. } => None,
    }
}
