use crate::kept::Kept;
use crate::making::{More, NO_MORE, open, played};
use crate::outside::Outside;
use crate::results::show_run;
use crate::scene::{Part, Scene};
use script_words::{Page, Unread};
use std::alloc::Global;

// After so many failures in a row the link is given up.
const IN_A_ROW: u64 = 16;

// Calls beyond this one aren't made to fail.
const MOST_CALLS: u64 = 10_000;

// What comes of a scene, from its opening rows on, where more calls fail.
fn outcome<K: Kept + Drop>(
    alloc: Global,
    scene: &Scene<'_>,
    more: More,
    outside: &mut Outside<K>,
) -> Result<Page, Unread> {
    open(alloc, scene, more, outside)?;
    let status = played(alloc, scene, more, outside)?;
    let mut page = Page::new(alloc);
    show_run(alloc, &mut page, scene, status, outside)?;
    Ok(page)
}

/// Prints what comes of a scene, and then what comes of it where one call of an object fails: the
/// first, the second, and so on until there is no such call. What comes of a call is printed where
/// it isn't as what came of the call before.
pub fn show_each<K: Kept + Drop>(
    alloc: Global,
    page: &mut Page,
    scene: &Scene<'_>,
    part: Part,
    outside: &mut Outside<K>,
) -> Result<(), Unread> {
    let whole = outcome(alloc, scene, NO_MORE, outside)?;
    page.raw(whole.as_slice())?;
    // The keeper's first call puts the opening rows.
    let first = if part == Part::Keeper { 2 } else { 1 };
    let mut each = Each {
        part,
        whole,
        last: Page::new(alloc),
    };
    for from in first..MOST_CALLS {
        if each.ended(alloc, scene, from, outside)? {
            break;
        }
        each.show(alloc, page, scene, from, outside)?;
    }
    Ok(())
}

// The object whose calls fail, what comes where none fails, and what came of the last call that
// did.
#[derive(Drop)]
struct Each {
    part: Part,
    whole: Page,
    last: Page,
}

impl Each {
    fn outcome<K: Kept + Drop>(
        &self,
        alloc: Global,
        scene: &Scene<'_>,
        calls: (u64, u64),
        outside: &mut Outside<K>,
    ) -> Result<Page, Unread> {
        let more = More {
            part: self.part,
            from: calls.0,
            count: calls.1,
        };
        outcome(alloc, scene, more, outside)
    }

    // Whether there is no such call.
    fn ended<K: Kept + Drop>(
        &self,
        alloc: Global,
        scene: &Scene<'_>,
        from: u64,
        outside: &mut Outside<K>,
    ) -> Result<bool, Unread> {
        let page = self.outcome(alloc, scene, (from, IN_A_ROW), outside)?;
        Ok(page.as_slice() == self.whole.as_slice())
    }

    fn show<K: Kept + Drop>(
        &mut self,
        alloc: Global,
        page: &mut Page,
        scene: &Scene<'_>,
        from: u64,
        outside: &mut Outside<K>,
    ) -> Result<(), Unread> {
        let now = self.outcome(alloc, scene, (from, 1), outside)?;
        if now.as_slice() != self.last.as_slice() {
            page.text("where a call fails\n")?;
            page.raw(now.as_slice())?;
            self.last = now;
        }
        Ok(())
    }
}
