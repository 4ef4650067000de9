ghost use Rattle.std.specs.Prelude.{◌≡◌, ◌≤◌, map, is_some, IfSome};
ghost use Rattle.json.specs.Tape.{node_token};
ghost use Rattle.serde_json.specs.Read.{max_depth};
ghost use Rattle.off_documents.specs.Documents.{level_within, level_after, level_behind};

use crate::numbers::Number;
use json::Node;

// How many arrays and objects may stand within one another.
const MAX_DEPTH: usize = 127;

// Whether each number of a text has a value, and nothing stands too deep.
pub(crate) fn is_convertible(nodes: &[Node<'_>]) -> bool
    ensures { result ≡ is_some (level_behind 0 (map node_token nodes.now)) }
{
    let mut level = 0;
    for node in nodes {
        let Some(next) = level_after(level, node) else {
            return false;
        };
        level = next;
    }
    true
}

// How many arrays and objects are open behind a node, or None where no text may go on with it.
fn level_after(level: usize, node: &Node<'_>) -> Option<usize>
    requires { level ≤ max_depth }
    ensures exact { result ≡ level_after level (node_token node.now) }
    ensures most { IfSome result (λ after. after ≤ max_depth) }
{
    match node {
        Node::Object(_) => level_within(level),
        Node::Array(_) => level_within(level),
        Node::EndObject => Some(level.saturating_sub(1)),
        Node::EndArray => Some(level.saturating_sub(1)),
        Node::Number(text) => {
            if Number::read(text).is_some() {
                Some(level)
            } else {
                None
            }
        }
        Node::Key(_) => Some(level),
        Node::String(_) => Some(level),
        Node::Bool(_) => Some(level),
        Node::Null => Some(level),
    }
}

fn level_within(level: usize) -> Option<usize>
    ensures exact { result ≡ level_within level }
    ensures most { IfSome result (λ inside. inside ≤ max_depth) }
{
    if level < MAX_DEPTH {
        Some(level + 1)
    } else {
        None
    }
}
