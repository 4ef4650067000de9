//! Rules in their order.

ghost use Rattle.std.specs.Prelude.{◌≡◌};
ghost use Rattle.off_asking.specs.Claims.{refused_by};

/// The word of the first rule that is broken.
pub fn first_broken<W: Copy>(rules: &[(W, bool)]) -> Option<W>
    ensures { result ≡ refused_by rules.now }
{
    for rule in rules {
        if rule.1 {
            return Some(rule.0);
        }
    }
    None
}
