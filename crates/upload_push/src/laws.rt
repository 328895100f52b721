//! What is true of every push, as laws: functions that do nothing and whose contracts are the laws.
ghost use Rattle.std.specs.Prelude.{◌≡◌, ◌≤◌, ℕ, ◌⊎◌, List, Option, length};
ghost use Rattle.upload_client.specs.declared.heard.Heard.{Heard};
ghost use Rattle.upload_push.specs.Looking.{LookPromise};
ghost use Rattle.upload_push.specs.Promise.{PushPromise, AloneIsQuiet};
ghost use Rattle.upload_push.specs.Runs.{PushPromiseInRuns};
ghost use Rattle.upload_push.specs.RuledOut.{PushesRuleOut};
ghost use Rattle.upload_push.specs.Steps.{Plan, Stand, turn, IsOver};
ghost use Rattle.upload_push.specs.Slices.{Push, IsLawfulPush, IsSound, IsClose, IsHead, LastIsAnswered, EndsRefused};
ghost use Rattle.upload_push.specs.Slices.{AreUnheard, after_all, log_of, most_asks};

use crate::pusher::{Outcome, Phase, Why};
use upload_client::written_places_are_read;
use upload_service::{headline_holds, others_leave_a_session};

/// Whatever is heard: each request is sound, a push ends well only after the reply that says so, and it makes no more
/// requests than (tries + 1) * (chunks of the file + 2). Where it ends refused, the last reply had that status and that
/// code; if nothing is heard it waits for its opening, or is out of tries. Once it has ended, nothing that is heard
/// changes it.
pub fn every_push()
    ensures sound { (p : Push) (heard : List (Option Heard)) → IsLawfulPush p
        → IsSound p (log_of p heard) }
    ensures pushed { (p : Push) (heard : List (Option Heard))
        → (after_all p heard).phase ≡ Phase.Done Outcome.Pushed
        → LastIsAnswered IsClose 201 (log_of p heard) }
    ensures already { (p : Push) (heard : List (Option Heard))
        → (after_all p heard).phase ≡ Phase.Done Outcome.Already
        → LastIsAnswered IsHead 200 (log_of p heard) }
    ensures refused { (p : Push) (heard : List (Option Heard)) (status : ℕ) (code : Option (List ℕ))
        → (after_all p heard).phase ≡ Phase.GaveUp (Why.Refused status code)
        → EndsRefused status code (log_of p heard) }
    ensures unheard { (p : Push) (heard : List (Option Heard)) → AreUnheard heard
        → ((after_all p heard).phase ≡ Phase.Opening)
        ⊎ ((after_all p heard).phase ≡ Phase.GaveUp Why.OutOfTries) }
    ensures over { (p : Plan) (s : Stand) (heard : Option Heard) → IsOver s.phase
        → turn p s heard ≡ s }
    ensures count { (p : Push) (heard : List (Option Heard)) → IsLawfulPush p
        → length (log_of p heard) ≤ most_asks p }
{}

/// The promise of a push: over a lossy world with any events, beside any clients, a push that ends `Pushed` or
/// `Already` left or found the repository with its digest, and the bytes that stand under it have that digest. Where no
/// other client's request carried the reference that the pusher had heard, a push that ends `Pushed` left exactly the
/// file there. So it is if there is no other client. A look that finds the blob has the promise of `Already`, and
/// whatever a look hears, a push behind it has this promise.
///
/// The same is true in any run of a lawful service, whose turns have secrets and moments of their own, and in which
/// requests of the push that were taken to be lost are served late.
pub fn push_promise()
    ensures promise { PushPromise }
    ensures in_runs { PushPromiseInRuns }
    ensures alone { AloneIsQuiet }
    ensures look { LookPromise }
{
    headline_holds();
    others_leave_a_session();
    written_places_are_read();
}

/// What the soundness of a push and its promise rule out, from their claims alone: that a push closes right behind a
/// chunk of which nothing was heard, and that the file which a push left exactly has a chunk twice or lacks one.
pub fn pushes_rule_out()
    ensures { PushesRuleOut }
{}
