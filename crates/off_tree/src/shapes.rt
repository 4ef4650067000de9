ghost use Rattle.std.specs.Prelude.{◌≡◌, ◌<◌, ◌≤◌, ◌&&◌, not, [], Some, length, map, take};
ghost use Rattle.std.specs.Prelude.{slice_get};
ghost use Rattle.off_base.specs.Tree.{Tree, code_of, row_of};
ghost use Rattle.off_base.specs.Setting.{tree_of};
ghost use Rattle.off_tree.specs.Table.{is_needed};
ghost use Rattle.off_tree.specs.Good.{single_rule};
ghost use Rattle.off_tree.specs.Fault.{contains, leaf_fault, group_fault, missing_in};
ghost use Rattle.off_tree.specs.Fault.{setting_fault, parts_fault};

use crate::paths::{Path, TreeFault};
use crate::tables::{Form, Level, Rule};
use off_base::{Setting, Settings};

// The first fault of settings and their parts by the tables.
#[cycle(shapes)]
pub(crate) fn parts_fault(level: Level, path: Path, settings: &Settings) -> Option<TreeFault>
    ensures { result ≡ parts_fault level path [] (row_of settings.now) }
{
    for place in 0..settings.len() {
        if let Some(fault) = setting_fault(level, path, settings, place) {
            return Some(fault);
        }
    }
    missing(level.table(), path, settings)
}

// The first fault of the setting at a place and of its parts.
#[cycle(shapes)]
fn setting_fault(level: Level, path: Path, settings: &Settings, place: usize) -> Option<TreeFault>
    requires { place < length settings.now }
    ensures { (t : Tree) → slice_get settings.now place ≡ Some t
        → result ≡ setting_fault level path (map code_of (take place settings.now)) t }
{
    let setting = settings.get(place);
    let code = code_of(setting);
    let rule = level.rule(code);
    let again = is_again(rule, settings, place, code);
    let path = path.below(code);
    match setting {
        Setting::Leaf { value, .. } => leaf_fault(rule, path, again, value.as_slice()),
        Setting::Group { parts, .. } => match group_fault(rule, path, again) {
            Some(fault) => Some(fault),
            None => parts_fault(level.inside(code), path, parts),
        },
    }
}

pub(crate) fn code_of(setting: &Setting) -> u8
    ensures { result ≡ code_of (tree_of setting.now) }
{
    match setting {
        Setting::Leaf { code, .. } => *code,
        Setting::Group { code, .. } => *code,
    }
}

// Whether a setting that may not stand twice stands before a place. Only for such codes are the
// earlier settings looked at: a list has a few of them before its first fault, so all of these
// looks together take a time in proportion to the list's length.
fn is_again(rule: Option<Rule>, settings: &Settings, end: usize, code: u8) -> bool
    requires { end ≤ length settings.now }
    ensures { result ≡ (single_rule rule && contains code (map code_of (take end settings.now))) }
{
    match rule {
        Some(rule) => rule.times.is_single() && stands(settings, end, code),
        None => false,
    }
}

// Whether a setting of the code stands before a place.
fn stands(settings: &Settings, end: usize, code: u8) -> bool
    requires { end ≤ length settings.now }
    ensures { result ≡ contains code (map code_of (take end settings.now)) }
{
    for place in 0..end {
        if code_of(settings.get(place)) == code {
            return true;
        }
    }
    false
}

// The first line of a table that has to stand and doesn't.
fn missing(table: &[Rule], path: Path, settings: &Settings) -> Option<TreeFault>
    ensures { result ≡ missing_in table.now path (map code_of settings.now) }
{
    for rule in table {
        if is_missing(*rule, settings) {
            return Some(TreeFault::Missing(path.below(rule.code)));
        }
    }
    None
}

fn is_missing(rule: Rule, settings: &Settings) -> bool
    ensures { result ≡
        (is_needed rule.times && not (contains rule.code (map code_of settings.now))) }
{
    rule.times.is_needed() && !stands(settings, settings.len(), rule.code)
}

// What is wrong with a leaf of this line.
fn leaf_fault(rule: Option<Rule>, path: Path, seen: bool, value: &[u8]) -> Option<TreeFault>
    ensures { result ≡ leaf_fault rule path seen value.now }
{
    let Some(rule) = rule else {
        return Some(TreeFault::UnknownCode(path));
    };
    let twice = seen && rule.times.is_single();
    match rule.form {
        Form::Group => Some(TreeFault::UnknownCode(path)),
        Form::Leaf {
            shortest,
            longest,
            range,
        } => {
            if twice {
                Some(TreeFault::Twice(path))
            } else if value.len() < usize::from(shortest) || value.len() > usize::from(longest) {
                Some(TreeFault::Length(path))
            } else if range.has(value) {
                None
            } else {
                Some(TreeFault::Range(path))
            }
        }
    }
}

// What is wrong with a group of this line, apart from its parts.
fn group_fault(rule: Option<Rule>, path: Path, seen: bool) -> Option<TreeFault>
    ensures { result ≡ group_fault rule path seen }
{
    let Some(rule) = rule else {
        return Some(TreeFault::UnknownCode(path));
    };
    let again = seen && rule.times.is_single();
    match rule.form {
        Form::Leaf { .. } => Some(TreeFault::UnknownCode(path)),
        Form::Group => {
            if again {
                Some(TreeFault::Twice(path))
            } else {
                None
            }
        }
    }
}
