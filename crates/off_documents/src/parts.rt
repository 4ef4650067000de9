ghost use Rattle.std.specs.Prelude.{◌≡◌, ◌<◌, length, is_some, IsTrue, option_map};
ghost use Rattle.std.specs.Prelude.{option_and_then, MatchOption, OnSome, IfSome};
ghost use Rattle.json.specs.Json.{Json};
ghost use Rattle.json.specs.Find as json;
ghost use Rattle.json.specs.Find.{BeginsWith, Finds};
ghost use Rattle.serde_json.specs.Data.{no_items, item};
ghost use Rattle.serde_json.specs.Find.{get, as_str, as_bool, as_number, as_u64, as_i64};
ghost use Rattle.serde_json.specs.Find.{as_array, as_object};
ghost use Rattle.off_documents.specs.Documents.{value_at, data_of, elements_of, AreThree};
ghost use Rattle.off_documents.specs.Numbers.{num_of};

use crate::numbers::Number;
use json::{Element, Items};
use std::marker::Model;

/// A value within a document. Clauses see the tokens from it on.
#[derive(Drop)]
pub struct Part<'t, 'a> {
    element: Element<'t, 'a>,
}

impl<'t, 'a> Model for Part<'t, 'a> {
    ghost use Rattle.std.specs.Prelude.{List, IsTrue, is_some};
    ghost use Rattle.json.specs.Token.{Token, tokens_code};
    ghost use Rattle.off_documents.specs.Documents.{value_at};

    ghost Value = { List Token };

    ghost coded = { tokens_code };

    ghost view = { λ a. a.element };

    ghost invariant = { λ a. IsTrue (is_some (value_at a.element)) };
}

impl<'t, 'a> Part<'t, 'a> {
    pub(crate) fn begin(element: Element<'t, 'a>) -> Part<'t, 'a>
        requires { IsTrue (is_some (value_at element)) }
        ensures { result ≡ element.entry }
    {
        Part { element }
    }

    /// The last member of that name, where this is an object.
    pub fn get(&self, name: &str) -> Option<Part<'t, 'a>>
        ensures { option_map data_of result ≡ get name.now (data_of self.now) }
    {
        match self.element.get(name) {
            Some(element) => Some(Part { element }),
            None => None,
        }
    }

    /// The last members of three names, no two of which are the same: what `get` gives for each, by
    /// one walk over the members.
    pub fn get_three(
        &self,
        one: &str,
        two: &str,
        three: &str,
    ) -> (
        Option<Part<'t, 'a>>,
        Option<Part<'t, 'a>>,
        Option<Part<'t, 'a>>,
    )
        requires { AreThree one.now two.now three.now }
        ensures one { option_map data_of result.0 ≡ get one.now (data_of self.now) }
        ensures two { option_map data_of result.1 ≡ get two.now (data_of self.now) }
        ensures three { option_map data_of result.2 ≡ get three.now (data_of self.now) }
    {
        let (first, second, third) = last_three(&self.element, one, two, three);
        (part_of(first), part_of(second), part_of(third))
    }

    pub fn as_str(&self) -> Option<&'a str>
        ensures { option_map (λ s. s.now) result ≡ as_str (data_of self.now) }
    {
        self.element.as_str()
    }

    pub fn as_bool(&self) -> Option<bool>
        ensures { result ≡ as_bool (data_of self.now) }
    {
        self.element.as_bool()
    }

    /// A whole number without a sign, of 64 bits.
    pub fn as_u64(&self) -> Option<u64>
        ensures { result ≡ option_and_then as_u64 (as_number (data_of self.now)) }
    {
        match self.number() {
            Some(number) => number.as_u64(),
            None => None,
        }
    }

    /// A whole number of 64 bits.
    pub fn as_i64(&self) -> Option<i64>
        ensures { result ≡ option_and_then as_i64 (as_number (data_of self.now)) }
    {
        match self.number() {
            Some(number) => number.as_i64(),
            None => None,
        }
    }

    fn number(&self) -> Option<Number>
        ensures { option_map num_of result ≡ as_number (data_of self.now) }
    {
        match self.element.as_number() {
            Some(text) => Number::read(text),
            None => None,
        }
    }

    pub fn is_object(&self) -> bool
        ensures { result ≡ is_some (as_object (data_of self.now)) }
    {
        self.element.members().is_some()
    }

    /// The elements, where this is an array.
    pub fn elements(&self) -> Option<Parts<'t, 'a>>
        ensures { option_map elements_of result ≡ as_array (data_of self.now) }
    {
        match self.element.items() {
            Some(items) => Some(Parts { items }),
            None => None,
        }
    }
}

// What stands at three names, no two of which are the same, of several members the last.
fn last_three<'t, 'a>(
    element: &Element<'t, 'a>,
    one: &str,
    two: &str,
    three: &str,
) -> (
    Option<Element<'t, 'a>>,
    Option<Element<'t, 'a>>,
    Option<Element<'t, 'a>>,
)
    requires { AreThree one.now two.now three.now }
    ensures { (j : Json) → BeginsWith element.now j → Finds result.0 (json.get one.now j)
        × Finds result.1 (json.get two.now j) × Finds result.2 (json.get three.now j) }
{
    let Some(mut members) = element.members() else {
        return (None, None, None);
    };
    let (mut first, mut second, mut third) = (None, None, None);
    while let Some((name, member)) = members.next() {
        if name == one {
            first = Some(member);
        } else if name == two {
            second = Some(member);
        } else if name == three {
            third = Some(member);
        }
    }
    (first, second, third)
}

fn part_of<'t, 'a>(element: Option<Element<'t, 'a>>) -> Option<Part<'t, 'a>>
    requires { IfSome element (λ ts. IsTrue (is_some (value_at ts))) }
    ensures { result ≡ element.entry }
{
    match element {
        Some(element) => Some(Part { element }),
        None => None,
    }
}

/// The elements of an array that are still to come. Clauses see the tokens from the next one on.
#[derive(Drop)]
pub struct Parts<'t, 'a> {
    items: Items<'t, 'a>,
}

impl<'t, 'a> Model for Parts<'t, 'a> {
    ghost use Rattle.std.specs.Prelude.{List, IsTrue, is_some};
    ghost use Rattle.json.specs.Token.{Token, tokens_code};
    ghost use Rattle.off_documents.specs.Documents.{items_at};

    ghost Value = { List Token };

    ghost coded = { tokens_code };

    ghost view = { λ a. a.items };

    ghost invariant = { λ a. IsTrue (is_some (items_at a.items)) };
}

impl<'t, 'a> Parts<'t, 'a> {
    pub fn next(&mut self) -> Option<Part<'t, 'a>>
        ensures value { MatchOption result (elements_of self.old ≡ no_items)
            (λ part. elements_of self.old ≡ item (data_of part) (elements_of self.new)) }
        ensures shorter { OnSome result (length self.new < length self.old) }
    {
        let Some(element) = self.items.next() else {
            return None;
        };
        Some(Part { element })
    }
}
