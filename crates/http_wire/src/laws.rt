//! What follows from the definitions: a text is read in one way, and what a transcript is.
ghost use Rattle.http_wire.specs.Fronts.{requests, responses};
ghost use Rattle.http_wire.specs.Transcripts.{TranscriptsAreOfTheKnown};
ghost use Rattle.http_wire.specs.Unambiguous.{HeadsAreUnambiguous, BodiesAreUnambiguous};

/// A text begins with at most one head of a request, and with at most one of a reply. One that may be refused begins
/// with none, but for one of more than 66 lines.
pub fn heads_are_unambiguous()
    ensures requests { HeadsAreUnambiguous requests }
    ensures responses { HeadsAreUnambiguous responses }
{}

/// Behind a head stands at most one body, of one length. Where there is a whole one, it is neither refused nor cut
/// short, and what is refused is so for one reason.
pub fn bodies_are_unambiguous()
    ensures { BodiesAreUnambiguous }
{}

/// If a reader's whole input is known, as it is over memory, the transcript is a prefix of it, and all of it if the
/// source has ended. If it is known what a writer holds, that grew by what the transcript did.
pub fn transcripts_are_of_the_known()
    ensures { TranscriptsAreOfTheKnown }
{}
