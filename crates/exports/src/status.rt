// The status of a call: 0 where it is accepted, and else the number of the refusal.
ghost use Rattle.std.specs.Prelude.{◌≡◌};
ghost use Rattle.exports.specs.status.Replies.{status_in};

use meaning::Refusal;

// The status that a reply tells.
#[tactic(auto, unfolding(crate::specs::status::Replies::status_in))]
pub fn status<T>(reply: Result<T, Refusal>) -> u64
where
    T: Copy,
    ensures { result ≡ status_in reply }
{
    match reply {
        Ok(_) => 0,
        Err(r) => r.into(),
    }
}
