//! Laws of the definitions.
ghost use Rattle.std.specs.Prelude.{◌≡◌, ◌⊎◌, ◌<◌, ◌↔◌, ℕ, List, length, Some};
ghost use Rattle.definitions.specs.Limits.{max_head};
ghost use Rattle.httparse.specs.Grammar.{HasNoRequest};
ghost use Rattle.act_sessions.specs.declared.request.Request.{Request};
ghost use Rattle.webhook_sessions.specs.declared.fault.Fault.{Fault as Faulty};
ghost use Rattle.webhook_sessions.specs.declared.path.Path.{Path};
ghost use Rattle.webhook_sessions.specs.Asking.{unread};
ghost use Rattle.webhook_sessions.specs.Hooks.{IsInExcessField, IsInLostTarget, hooks};
ghost use Rattle.webhook_sessions.specs.Paths.{IsTargetOf, path_of};

use crate::fault::Fault;

/// A target names a path exactly if it is encoded as that path is. A query, another slash or another form makes it a different target.
/// Promise (Sessions): A target names a path exactly where it is written as that path is
/// By: `webhook_sessions::laws::a_path_has_its_targets` (`IsTargetOf`)
pub fn a_path_has_its_targets()
    ensures { (target : List ℕ) (path : Path) → (path_of target ≡ Some path) ↔ IsTargetOf path target }
{}

/// Bytes that wait are not a request, with two exceptions, in which a session may answer 400 or wait for more. The bytes end inside a
/// target that is not UTF-8, or inside the first field too many. In both no further bytes make a head within the limits.
/// Promise (Sessions): Bytes that wait for more can be a request only as a bad head (70), and only inside a target that is not UTF-8 or inside
///   the first field too many; there both are allowed
/// By: `webhook_sessions::laws::bytes_that_wait_are_at_most_a_bad_head`, `only`, `both` (`IsInLostTarget`, `IsInExcessField`)
pub fn bytes_that_wait_are_at_most_a_bad_head()
    ensures only { (bytes rest : List ℕ) (r : Request Faulty) → hooks.waits bytes → hooks.reads bytes r rest
        → (r ≡ unread Fault.BadHead) × (rest ≡ bytes) × (IsInLostTarget bytes ⊎ IsInExcessField bytes) }
    ensures both { (bytes : List ℕ) → HasNoRequest bytes → length bytes < max_head → IsInLostTarget bytes ⊎ IsInExcessField bytes
        → hooks.waits bytes × hooks.reads bytes (unread Fault.BadHead) bytes }
{}
