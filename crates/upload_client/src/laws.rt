//! Laws of what a client reads.
ghost use Rattle.upload_client.specs.Heard.{PlacesAreReadBack};
ghost use Rattle.upload_client.specs.UnambiguousReplies.{RepliesAreUnambiguous};

/// What a reply writes as the place of an upload is read as that upload's reference.
pub fn written_places_are_read()
    ensures { PlacesAreReadBack }
{}

/// A text is read in one way: as one reply, of which one thing is heard, and what stands behind it, or as unreadable,
/// too large or cut short. Only its head may be refused too, and not if it begins with one of at most 66 lines.
pub fn replies_are_unambiguous()
    ensures { RepliesAreUnambiguous }
{}
