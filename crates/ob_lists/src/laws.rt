//! Laws on lists of calls. They do nothing when they run.
ghost use Rattle.ob_lists.specs.Going.{JoinLaw, RestartLaw, RowsLaw, StreamsLaw, ToldLaw, WrittenLaw};

use ob_http_requests::one_request;
use ob_http_routes::answers_law;
use ob_sql_check::upgrade_law;
use ob_store::Alter;
use ob_sweep::Timeline;

/// A process may end at any moment: a `Keeper` over what the crash left of its store goes on from
/// the same state.
pub fn restart_law<S: Alter, T: Timeline, R: Alter, U: Timeline>()
    ensures { RestartLaw T U S.Store R.Store }
{
    upgrade_law();
}

/// One list of calls after another is a list of calls.
pub fn join_law<S: Alter, T: Timeline, M: Alter, U: Timeline, R: Alter, V: Timeline>()
    ensures { JoinLaw T U V S.Store M.Store R.Store }
{}

/// Whatever book a list of answered calls may have left, it contains each command that was
/// acknowledged, the command of each row that an import counts, and each command that a request of
/// a stream posted and the book answered with a reply. If the bytes of a stream are known, those
/// that were written show which commands these are: the ones whose reply has status 200.
pub fn told_law()
    ensures commands { ToldLaw }
    ensures rows { RowsLaw }
    ensures streams { StreamsLaw }
    ensures written { WrittenLaw }
{
    answers_law();
    one_request();
}
