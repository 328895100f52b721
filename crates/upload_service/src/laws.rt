//! What holds of every run of the service, as laws: functions that do nothing and whose contracts are the laws.
ghost use Rattle.upload_service.specs.FullTable.{OpeningsMeetTheTable};
ghost use Rattle.upload_service.specs.Headline.{HeadlineHolds, OthersLeaveIt};
ghost use Rattle.upload_service.specs.RuledOut.{HeadlineRulesOut};

/// Over every list of requests, of any clients in any order, from every lawful state, if the moments don't
/// fall: a blob that a session commits is that session's accepted chunks joined in the order taken, each once, and
/// has the digest asked for; a chunk that misses the next offset is answered so and changes nothing; a closed
/// session takes nothing more; every session's replies are those that it would get alone, refusals for memory left
/// out; the store is what was stored; and a request for a blob is answered with it if the repository has it, or memory
/// was refused for its bytes, and with NoBlob if not.
pub fn headline_holds()
    ensures { HeadlineHolds }
{}

/// A request leaves every open session whose reference it doesn't carry open with its name and bytes, or the
/// session is idle then and leaves the table.
pub fn others_leave_a_session()
    ensures { OthersLeaveIt }
{}

/// An opening is refused if all numbers were given out, or if the table is full and no session is idle, and
/// nowhere else but for memory. Of a full table the idle sessions leave, and no others.
pub fn openings_meet_the_table()
    ensures { OpeningsMeetTheTable }
{}

/// What the headline rules out, from its claims alone: that a chunk which overlaps the received bytes is taken,
/// that a reference of another secret reaches a session, that a reference is begun again, and that a request which
/// was answered NoMemory leaves a trace.
pub fn headline_rules_out()
    ensures { HeadlineRulesOut }
{}
