ghost use Rattle.std.specs.Prelude.{◌≡◌, ℕ, ◌++◌, List};
ghost use Rattle.off_tree.specs.Fault.{as_list};
ghost use Rattle.off_tree.specs.Reference.{Marks};

// So many of the least numbers can be marked. A good reference is less.
pub(crate) const MARKS: usize = 256;

// Marks a number, where it's one of those.
pub(crate) fn mark(marks: &mut [bool; 256], number: Option<u16>)
    ensures { (numbers : List ℕ) → Marks marks.old numbers
        → Marks marks.new (numbers ++ as_list number) }
{
    let Some(number) = number else {
        return;
    };
    let place = usize::from(number);
    if place < MARKS {
        marks[place] = true;
    }
}

// The number of one byte as one of two.
pub(crate) fn as_pair(number: Option<u8>) -> Option<u16>
    ensures { result ≡ number }
{
    match number {
        Some(number) => Some(u16::from(number)),
        None => None,
    }
}
