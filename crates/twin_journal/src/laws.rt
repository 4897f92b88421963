//! A law of two journals. The function computes nothing: its contract is the law.
ghost use Rattle.twin_journal.specs.Laws.{StayTogether};

/// Files that keep together at first still do, at whatever moment of a session a crash found each of them.
pub fn stay_together()
    ensures { StayTogether }
{
    audit_session::laws::stops_in_order();
}
