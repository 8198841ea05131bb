// Preview (document 02, request 6): the stamp that a verdict would lead to, before it is filed.
ghost use Rattle.std.specs.Prelude.{◌≡◌, length};
ghost use Rattle.common.specs.Refusal.{number_in};
ghost use Rattle.session.specs.Operation.{refusal_number, preview_refusal, preview_of};
ghost use Rattle.session.specs.Promise.{PreviewPromise};

use crate::stamp;
use crate::state::{Refusal, Session};

impl Session {
    // The stamp that this verdict followed by a stamp call would write, written to the first 46 bytes of out. The
    // session stays as it is. Refused as the verdict is, and then by 6.
    #[tactic(auto, using(crate::proofs::PreviewLaws::stamp_has_room))]
    pub fn preview(self, kind: u8, yes: u8, fascn: &[u8], out: &mut [u8]) -> Result<(), Refusal>
        ensures as_two_calls { (number_in refusal_number result, out.new) ≡ preview_of self kind yes fascn.now out.old }
        ensures in_order { number_in refusal_number result ≡ preview_refusal self kind yes fascn.now (length out.old) }
        ensures for_every_list { PreviewPromise self kind yes fascn.now out.old out.new (number_in refusal_number result) }
    {
        self.verdict_refusal(kind, yes, fascn)?;
        stamp::room_refusal(out.len())?;
        let copy = self.take_verdict(kind, yes, fascn);
        copy.write_stamp(out);
        Ok(())
    }
}
