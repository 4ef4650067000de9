ghost use Rattle.std.specs.Prelude.{◌≡◌, MatchResult};
ghost use Rattle.off_defs.specs.State.{says_nothing};
ghost use Rattle.off_query.specs.Calls.{query_calls};
ghost use Rattle.off_book.specs.Dhcp.{query_said};
ghost use Rattle.off_outside.specs.declared.keeper.KeepErr.TheVariants.{Memory};
ghost use Rattle.off_outside.specs.KeeperCalls.{Spent};
ghost use Rattle.off_office.specs.Querying.{AnswersQuery};

use crate::messages::{line_with, say_reply};
use crate::office::Office;
use off_outside::{KeepErr, Keeper, Replies};
use off_query::{Query, QueryStep, reply_by};

impl Office {
    // Answers a relay's query, by what the office keeps of the pools. Nothing is written, and the
    // office stays as it is.
    pub(crate) fn serve_query<K: Keeper>(
        &self,
        keeper: &mut K,
        query: &Query<'_>,
        out: &mut Replies,
    ) -> Result<(), KeepErr>
        requires { out.old ≡ says_nothing }
        ensures told { AnswersQuery result query.now self.entry.now out.new
            (K.seen keeper.old) (K.seen keeper.new) }
        ensures spent { Spent (query_calls query.now) (K.seen keeper.old) (K.seen keeper.new) }
    {
        match reply_by(self.alloc, keeper, &self.runs, self.now, query) {
            Ok(step) => say_answer(step, out),
            Err(err) => Err(err),
        }
    }
}

// Says the reply to a query, where there is one, and the line.
fn say_answer(step: QueryStep, out: &mut Replies) -> Result<(), KeepErr>
    requires { out.old ≡ says_nothing }
    ensures { MatchResult result (λ _. out.new ≡ query_said step) (λ err. err ≡ Memory) }
{
    let QueryStep { reply, word } = step;
    say_reply(reply, line_with(word.text()).as_slice(), out)?;
    Ok(())
}
