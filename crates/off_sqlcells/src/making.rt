ghost use Rattle.std.specs.Prelude.{OnOk, IfErr, [], ◌∷◌};
ghost use Rattle.sqlite.specs.Held.{state};
ghost use Rattle.off_sqlcells.specs.Refusals.{FailsToMake};
ghost use Rattle.off_sqlcells.specs.Stands.{IsSteady, Makes};

use crate::refusals::{Refused, why};
use off_outside::KeepErr;
use sqlite::{Alter, Connection};

// Makes the table where it isn't there.
pub(crate) fn make_table<S: Alter>(conn: &mut Connection<S>) -> Result<(), KeepErr>
    ensures made { IsSteady S.Store → OnOk result
        (Makes (state S.Store conn.old) (state S.Store conn.new)) }
    ensures cause { IsSteady S.Store → IfErr result
        (FailsToMake (state S.Store conn.old) (state S.Store conn.new)) }
{
    let done = conn.execute(
        "CREATE TABLE IF NOT EXISTS office \
            (ident BLOB PRIMARY KEY NOT NULL, val BLOB NOT NULL) STRICT",
        &[],
    );
    match done {
        Ok(_count) => Ok(()),
        Err(err) => Err(why(Refused::from(err))),
    }
}
