//! An answer that may be heard.
ghost use Rattle.std.specs.Prelude.{◌≡◌};

use crate::keeping::Keeping;
use std::marker::Model;
use upload_service::Answer;

/// An answer that may be heard: it stands in a run of which all changes are kept, and all moments are promised. Nothing
/// else goes to a seat, and there is no other way to make one. Contracts see it as its answer.
#[derive(Drop)]
pub(crate) struct Heard {
    answer: Answer,
}

impl Model for Heard {
    ghost use Rattle.upload_service.specs.declared.answer.Answer.{Answer};

    ghost Value = { Answer };

    ghost view = { λ h. h.answer };
}

impl Heard {
    ghost use Rattle.upload_keeper.specs.Safety.{MayBeHeard};

    /// The answer, which stands in a run of which all changes are kept, and all moments promised, there.
    pub(crate) fn of<K: Keeping>(answer: Answer, _kept: &K) -> Heard
        requires { MayBeHeard (K.start _kept.now) (K.kept _kept.now) (K.upto _kept.now) answer }
        ensures { result ≡ answer }
    {
        Heard { answer }
    }

    pub(crate) fn into_answer(self) -> Answer
        ensures { result ≡ self }
    {
        let Heard { answer } = self;
        answer
    }
}
